//! Copies of values, which own all that they hold.
ghost use Rattle.std.specs.Prelude.{◌≡◌, IfOk, map};
ghost use Rattle.yq_core.specs.Values.{field_of, value_node};

use std::alloc::{AllocError, Global};
use yq_core::Value;

/// The same value again.
#[cycle(copied)]
pub fn copied(alloc: Global, value: &Value) -> Result<Value, AllocError>
    ensures { IfOk result (λ v. value_node v ≡ value_node value.now) }
{
    match value {
        Value::Scalar(scalar) => Ok(Value::Scalar(scalar.copy(alloc)?)),
        Value::List(items) => Ok(Value::List(copied_items(alloc, items)?)),
        Value::Map(entries) => Ok(Value::Map(copied_entries(alloc, entries)?)),
    }
}

/// The same items again.
#[cycle(copied)]
fn copied_items(alloc: Global, items: &Vec<Value>) -> Result<Vec<Value>, AllocError>
    ensures { IfOk result (λ v. map value_node v.items ≡ map value_node items.now.items) }
{
    let mut copies = Vec::with_capacity(alloc, items.len())?;
    'each: for item in items {
        copies.push(copied(alloc, item)?)?;
    }
    Ok(copies)
}

/// The same entries again.
#[cycle(copied)]
fn copied_entries(
    alloc: Global,
    entries: &Vec<(String, Value)>,
) -> Result<Vec<(String, Value)>, AllocError>
    ensures { IfOk result (λ v. map field_of v.items ≡ map field_of entries.now.items) }
{
    let mut copies = Vec::with_capacity(alloc, entries.len())?;
    'each: for entry in entries {
        let value = copied(alloc, &entry.1)?;
        let key = String::from_str(alloc, entry.0.as_str())?;
        copies.push((key, value))?;
    }
    Ok(copies)
}
