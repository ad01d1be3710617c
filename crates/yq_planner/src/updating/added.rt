//! A value that is added to a node.
ghost use Rattle.std.specs.Prelude.{◌≡◌, None, false};
ghost use Rattle.yq_core.{specs.Values.{value_node, items_of}, specs.Tree.{none, scalar}};
ghost use Rattle.yq_nodes.specs.Nodes.{node_of};
ghost use Rattle.yq_planner.specs.ChangeView.{change_of};
ghost use Rattle.yq_planner.specs.ChangeAnswers.{OfEntries, GivesAdditions, GivesAddition, entry_addition, entry_additions};
ghost use Rattle.yq_planner.specs.ChangeAnswers.{node_with_entries};
ghost use Rattle.yq_semantics.specs.Judgement.{Judges};
ghost use Rattle.yq_semantics.specs.Changes as spec;
ghost use Rattle.yq_semantics.specs.RightValues as values;

use crate::updating::change::{Addition, Change};
use crate::updating::copied::copied;
use crate::updating::entry_index::{EntryIndex, find, index_of};
use crate::updating::sum::scalar_sum;
use std::alloc::{AllocError, Global};
use yq_core::{Kind, Value};
use yq_nodes::{Node, NodeKind};
use yq_semantics::{ExprError, Refusal};

/// A value that is added to a scalar.
fn to_scalar(alloc: Global, kind: Kind, text: &str, value: &Value) -> Result<Change, ExprError>
    requires { values.is_null (value_node value.now) ≡ false }
    ensures { Judges change_of result (spec.added (scalar None kind text.now)
        (value_node value.now)) }
{
    match (kind, value) {
        (Kind::Null, _) => Ok(Change::Replaces(copied(alloc, value)?)),
        (_, Value::Scalar(other)) => Ok(Change::Replaces(scalar_sum(alloc, kind, text, other)?)),
        (_, Value::List(_) | Value::Map(_)) => Err(Refusal::KindMismatch.error()),
    }
}

/// The items of a list.
fn items(alloc: Global, values: &Vec<Value>) -> Result<Vec<Addition>, AllocError>
    ensures { GivesAdditions result (spec.additions none (items_of values.now.items)) }
{
    let mut additions = Vec::with_capacity(alloc, values.len())?;
    'values: for value in values {
        additions.push(Addition::Appends(None, copied(alloc, value)?))?;
    }
    Ok(additions)
}

/// The items that a list gets from a value.
fn to_list(alloc: Global, value: &Value) -> Result<Vec<Addition>, AllocError>
    ensures { GivesAdditions result (spec.additions none (values.as_items (value_node value.now))) }
{
    if let Value::List(values) = value {
        return items(alloc, values);
    }
    let mut additions = Vec::with_capacity(alloc, 1)?;
    additions.push(Addition::Appends(None, copied(alloc, value)?))?;
    Ok(additions)
}

/// An entry for a mapping with the entries of that index.
fn entry(
    alloc: Global,
    index: &EntryIndex<'_, '_>,
    key: &str,
    value: &Value,
) -> Result<Addition, AllocError>
    ensures { OfEntries index.now (λ cs. GivesAddition result (entry_addition cs key.now value.now)) }
{
    let owned = String::from_str(alloc, key)?;
    let value = copied(alloc, value)?;
    match find(index, key) {
        Some(_) => Ok(Addition::Overwrites(owned, value)),
        None => Ok(Addition::Appends(Some(owned), value)),
    }
}

/// Entries for a mapping with the entries of that index.
fn entries(
    alloc: Global,
    index: &EntryIndex<'_, '_>,
    others: &Vec<(String, Value)>,
) -> Result<Vec<Addition>, AllocError>
    ensures { OfEntries index.now (λ cs. GivesAdditions result (entry_additions cs others.now)) }
{
    let mut additions = Vec::with_capacity(alloc, others.len())?;
    'each: for other in others {
        additions.push(entry(alloc, index, other.0.as_str(), &other.1)?)?;
    }
    Ok(additions)
}

/// The entries of a value for a mapping.
fn to_map(alloc: Global, node: &Node<'_, '_>, value: &Value) -> Result<Change, ExprError>
    ensures { Judges change_of result (node_with_entries node.now value.now) }
{
    let Value::Map(others) = value else {
        return Err(Refusal::KindMismatch.error());
    };
    let index = index_of(alloc, node)?;
    Ok(Change::Adds(entries(alloc, &index, others)?))
}

/// What a value changes that is added to a node.
pub fn added(alloc: Global, node: &Node<'_, '_>, value: &Value) -> Result<Change, ExprError>
    requires { values.is_null (value_node value.now) ≡ false }
    ensures { Judges change_of result (spec.added (node_of node.now) (value_node value.now)) }
{
    let (kind, text) = node.kind_and_text();
    match kind {
        NodeKind::Alias => Err(Refusal::ThroughAlias.error()),
        NodeKind::Scalar(kind) => to_scalar(alloc, kind, text, value),
        NodeKind::List => Ok(Change::Adds(to_list(alloc, value)?)),
        NodeKind::Map => to_map(alloc, node, value),
    }
}
