//! How many items and entries are in values.
ghost use Rattle.std.specs.Prelude.{◌≤◌};
ghost use Rattle.yq_core.specs.Values.{entries_of, items_of, value_node};
ghost use Rattle.yq_semantics.specs.Sizes.{items_among, items_in};

use yq_core::Value;

/// How many items and entries are in a value, at any depth, of which eight bytes of a text count as one: so many at
/// least.
#[cycle(count)]
pub(crate) fn count_in(value: &Value) -> usize
    ensures { result ≤ items_in (value_node value.now) }
{
    match value {
        Value::Scalar(scalar) => scalar.text().len() / 8,
        Value::List(items) => count_items(items),
        Value::Map(entries) => count_entries(entries),
    }
}

/// How many these items are, with what is in them: so many at least.
#[cycle(count)]
fn count_items(items: &Vec<Value>) -> usize
    ensures { result ≤ items_among (items_of items.now.items) }
{
    let mut count = 0usize;
    'each: for item in items {
        count = count.saturating_add(count_in(item)).saturating_add(1);
    }
    count
}

/// The same of entries.
#[cycle(count)]
fn count_entries(entries: &Vec<(String, Value)>) -> usize
    ensures { result ≤ items_among (entries_of entries.now.items) }
{
    let mut count = 0usize;
    'each: for entry in entries {
        count = count.saturating_add(count_in(&entry.1)).saturating_add(1);
    }
    count
}
