//! A value that is put at a place.
ghost use Rattle.std.{specs.List.list_any, specs.Prelude.{◌≡◌, ◌∷◌, [], IfOk, map}};
ghost use Rattle.yq_core.specs.Values.{value_node};
ghost use Rattle.yq_nodes.specs.Nodes.{node_of};
ghost use Rattle.yq_planner.specs.ChangeView.{change_of};
ghost use Rattle.yq_semantics.{specs.Judgement.Judges, specs.Program.is_index, specs.View.program_step};
ghost use Rattle.yq_eval.specs.PlaceView.{place_of};
ghost use Rattle.yq_expr.specs.JudgedChanges.{JudgesPut};
ghost use Rattle.yq_semantics.specs.Changes as spec;

use crate::plans::steps::missing_steps;
use std::alloc::{AllocError, Global};
use yq_core::Value;
use yq_eval::{FoundPlace, Missing};
use yq_nodes::{Node, NodeKind};
use yq_planner::{Addition, Change};
use yq_semantics::{ExprError, PathStep, Refusal, is_index};

/// Whether some step is an index.
fn has_index(steps: &[&PathStep]) -> bool
    ensures { result ≡ list_any (λ s. is_index (program_step s.now)) steps.now }
{
    steps.iter().any(|step| is_index(step))
}

/// A value under one key more, in the mapping of one entry.
fn under(alloc: Global, step: &PathStep, value: Value) -> Result<Value, AllocError>
    ensures { IfOk result (λ v. value_node v ≡ spec.nested (program_step step.now ∷ [])
        (value_node value)) }
{
    let PathStep::Key(key) = step else {
        return Ok(value);
    };
    let mut entries = Vec::with_capacity(alloc, 1)?;
    let key = String::from_str(alloc, key.as_str())?;
    entries.push((key, value))?;
    Ok(Value::Map(entries))
}

/// A value under keys, a mapping of one entry for each.
fn nested(alloc: Global, steps: &[&PathStep], value: Value) -> Result<Value, AllocError>
    ensures { IfOk result (λ v. value_node v ≡ spec.nested (map (λ s. program_step s.now) steps.now)
        (value_node value)) }
{
    let mut nested = value;
    let mut rest = steps;
    'steps: while let [front @ .., last] = rest {
        nested = under(alloc, last, nested)?;
        rest = front;
    }
    Ok(nested)
}

/// One entry more, of a step's key.
fn appended(alloc: Global, step: &PathStep, value: Value) -> Result<Change, AllocError>
    ensures { IfOk result (λ c. change_of c ≡ spec.adds (spec.appends
        (spec.step_key (program_step step.now)) (value_node value) ∷ [])) }
{
    let mut additions = Vec::with_capacity(alloc, 1)?;
    let key = match step {
        PathStep::Key(key) => Some(String::from_str(alloc, key.as_str())?),
        PathStep::Index(_) | PathStep::Each => None,
    };
    additions.push(Addition::Appends(key, value))?;
    Ok(Change::Adds(additions))
}

/// A value under missing keys below a node: a mapping gets an entry more, and a
/// null is replaced by a mapping.
fn created(
    alloc: Global,
    node: &Node<'_, '_>,
    first: &PathStep,
    others: &[&PathStep],
    value: Value,
) -> Result<Change, AllocError>
    ensures { IfOk result (λ c. change_of c ≡
        spec.created (node_of node.now) (program_step first.now)
        (map (λ s. program_step s.now) others.now)
        (value_node value)) }
{
    let below = nested(alloc, others, value)?;
    if node.kind() == NodeKind::Map {
        return appended(alloc, first, below);
    }
    Ok(Change::Replaces(under(alloc, first, below)?))
}

/// What a value changes that is put below a node from which steps are missing:
/// no item can be made.
fn put_below(
    alloc: Global,
    node: &Node<'_, '_>,
    missing: &[&PathStep],
    value: Value,
) -> Result<Change, ExprError>
    ensures { Judges change_of result (spec.put_below (node_of node.now)
        (map (λ s. program_step s.now) missing.now) (value_node value)) }
{
    let [first, others @ ..] = missing else {
        return Ok(Change::Replaces(value));
    };
    if has_index(missing) {
        return Err(Refusal::IndexOutOfRange.error());
    }
    Ok(created(alloc, node, first, others, value)?)
}

/// What a value changes that is put at a place.
pub fn put(
    alloc: Global,
    place: &FoundPlace<'_, '_>,
    value: Value,
) -> Result<Option<Change>, ExprError>
    ensures { JudgesPut place.now result
        (spec.put_with_path (place_of place.now) (value_node value)) }
{
    if let Missing::Nothing = place.missing {
        return Ok(Some(Change::Replaces(value)));
    }
    let missing = missing_steps(alloc, place.missing)?;
    put_below(alloc, &place.node, &missing, value).map(Some)
}
