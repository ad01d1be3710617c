//! Sums that are their left sides.
ghost use Rattle.std.specs.Prelude.{◌≡◌, IfOk, map, true};
ghost use Rattle.yq_core.specs.Values.{field_of};
ghost use Rattle.yq_planner.{specs.EntryNumbers.AreNumbered, specs.Repeated.{HoldEntries, HoldEntry, HoldsValue}};

use crate::updating::key_numbers::{KeyNumbers, number_of, numbers_of};
use crate::updating::same_value::is_same_value;
use crate::updating::sum::is_null;
use std::alloc::{AllocError, Global};
use yq_core::Value;

/// Whether entries, which have these numbers, hold one of that key and value.
fn holds_entry(
    entries: &Vec<(String, Value)>,
    numbers: &KeyNumbers,
    key: &str,
    value: &Value,
) -> bool
    requires { AreNumbered (map field_of entries.now.items) numbers.now }
    ensures { result ≡ true → HoldEntry entries.now.items key.now value.now }
{
    match number_of(numbers, key) {
        Some(number) => is_same_value(&entries[number].1, value),
        None => false,
    }
}

/// Whether entries hold others, each with its value.
fn holds_entries(
    alloc: Global,
    entries: &Vec<(String, Value)>,
    others: &Vec<(String, Value)>,
) -> Result<bool, AllocError>
    ensures { IfOk result (λ b. b ≡ true → HoldEntries entries.now.items others.now.items) }
{
    let numbers = numbers_of(alloc, entries)?;
    'each: for other in others {
        if !holds_entry(entries, &numbers, other.0.as_str(), &other.1) {
            return Ok(false);
        }
    }
    Ok(true)
}

/// Whether the sum of two values is known to be the first one: the other one is null, or each of its entries is
/// in the first one.
pub(crate) fn holds_already(alloc: Global, one: &Value, other: &Value) -> Result<bool, AllocError>
    ensures { IfOk result (λ b. b ≡ true → HoldsValue one.now other.now) }
{
    if is_null(other) {
        return Ok(!is_null(one) || is_same_value(one, other));
    }
    match (one, other) {
        (Value::Map(entries), Value::Map(others)) => holds_entries(alloc, entries, others),
        _ => Ok(false),
    }
}
