//! Whether a value asks how much deeper than its key a collection is.
ghost use Rattle.std.specs.Prelude.{◌≡◌};
ghost use Rattle.yq_core.specs.Values.{entries_of, items_of, value_node};
ghost use Rattle.yq_edit_rules.specs.Layouts as spec;

use yq_core::Value;
use yq_edit_rules::is_filled;

/// Whether a value is a sequence, or a mapping, with items or entries.
fn is_filled_as(dashes: bool, value: &Value) -> bool
    ensures { result ≡ spec.is_filled_as dashes (value_node value.now) }
{
    match value {
        Value::Scalar(_) => false,
        Value::List(_) => dashes && is_filled(value),
        Value::Map(_) => !dashes && is_filled(value),
    }
}

/// Whether such a collection is under a key in a value.
#[cycle(asks)]
#[tactic(auto, unfolding(yq_edit_rules::specs::Layouts::node_asks), using(crate::proofs::AskedLaws::map_asked))]
fn node_asks(dashes: bool, value: &Value) -> bool
    ensures { result ≡ spec.node_asks dashes (value_node value.now) }
{
    match value {
        Value::Scalar(_) => false,
        Value::List(items) => items_ask(dashes, items),
        Value::Map(entries) => entries_ask(dashes, entries),
    }
}

/// The same of items.
#[cycle(asks)]
#[tactic(auto, unfolding(yq_edit_rules::specs::Layouts::children_ask))]
fn items_ask(dashes: bool, items: &Vec<Value>) -> bool
    ensures { result ≡ spec.children_ask dashes (items_of items.now.items) }
{
    'each: for item in items {
        if node_asks(dashes, item) {
            return true;
        }
    }
    false
}

/// The same of entries: one's value may be such a collection.
#[cycle(asks)]
#[tactic(auto, unfolding(yq_edit_rules::specs::Layouts::children_ask))]
fn entries_ask(dashes: bool, entries: &Vec<(String, Value)>) -> bool
    ensures { result ≡ spec.children_ask dashes (entries_of entries.now.items) }
{
    'each: for entry in entries {
        if is_filled_as(dashes, &entry.1) || node_asks(dashes, &entry.1) {
            return true;
        }
    }
    false
}

/// Whether a value asks for the step of sequences, or of mappings, where it is put under a key, or
/// elsewhere.
pub(crate) fn is_asked(keyed: bool, dashes: bool, value: &Value) -> bool
    ensures { result ≡ spec.is_asked keyed dashes (value_node value.now) }
{
    (keyed && is_filled_as(dashes, value)) || node_asks(dashes, value)
}
