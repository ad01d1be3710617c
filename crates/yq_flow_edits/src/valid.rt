//! Values that the code holds are valid: that is what their types say.
ghost use Rattle.std.specs.Prelude.{true, false};
ghost use Rattle.yq_core.specs.Values.{entries_of, items_of, value_node};
ghost use Rattle.yq_flow_edits.specs.Valued.{AreValueTrees, IsValid, IsValueTree};

use yq_core::{Scalar, Value};

fn scalar_holds(scalar: &Scalar)
    ensures { IsValid scalar.now }
{
    let _kind = scalar.kind();
    let _text = scalar.text();
}

/// A value is valid, as each is that the code holds.
#[cycle(values)]
pub fn value_holds(value: &Value)
    ensures { IsValueTree (value_node value.now) }
{
    match value {
        Value::Scalar(scalar) => scalar_holds(scalar),
        Value::List(items) => items_hold(items),
        Value::Map(entries) => entries_hold(entries),
    }
}

#[cycle(values)]
fn items_hold(items: &Vec<Value>)
    ensures { AreValueTrees false (items_of items.now.items) }
{
    'each: for item in items {
        value_holds(item);
    }
}

#[cycle(values)]
fn entries_hold(entries: &Vec<(String, Value)>)
    ensures { AreValueTrees true (entries_of entries.now.items) }
{
    'each: for entry in entries {
        let _key = entry.0.as_str();
        value_holds(&entry.1);
    }
}
