//! Values that are known to be the same.
ghost use Rattle.std.specs.Prelude.{◌≡◌, map, true};
ghost use Rattle.yq_core.specs.Values.{field_of, value_node};

use yq_core::Value;

/// Whether two values are known to be the same.
#[cycle(is_same_value)]
pub(crate) fn is_same_value(one: &Value, other: &Value) -> bool
    ensures { result ≡ true → value_node one.now ≡ value_node other.now }
{
    match (one, other) {
        (Value::Scalar(scalar), Value::Scalar(other)) => scalar.same(other),
        (Value::List(items), Value::List(others)) => are_same_items(items, others),
        (Value::Map(entries), Value::Map(others)) => are_same_entries(entries, others),
        _ => false,
    }
}

/// Whether items are known to be the same as others.
#[cycle(is_same_value)]
fn are_same_items(items: &Vec<Value>, others: &Vec<Value>) -> bool
    ensures { result ≡ true → map value_node items.now.items ≡ map value_node others.now.items }
{
    let mut rest: &[Value] = others;
    'each: for item in items {
        let [first, after @ ..] = rest else {
            return false;
        };
        if !is_same_value(item, first) {
            return false;
        }
        rest = after;
    }
    rest.is_empty()
}

/// Whether entries are known to be the same as others.
#[cycle(is_same_value)]
fn are_same_entries(entries: &Vec<(String, Value)>, others: &Vec<(String, Value)>) -> bool
    ensures { result ≡ true → map field_of entries.now.items ≡ map field_of others.now.items }
{
    let mut rest: &[(String, Value)] = others;
    'each: for entry in entries {
        let [first, after @ ..] = rest else {
            return false;
        };
        if entry.0.as_str() != first.0.as_str() || !is_same_value(&entry.1, &first.1) {
            return false;
        }
        rest = after;
    }
    rest.is_empty()
}
