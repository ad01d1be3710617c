//! Values under more missing keys than collections may be nested, which are refused before one is made.
ghost use Rattle.std.{specs.List.{list_all, list_any}, specs.Prelude.{◌≡◌, ◌||◌, IfErr, IfOk, IsTrue, map}};
ghost use Rattle.yq_core.{specs.Tree.Node as TreeNode, specs.Values.value_node};
ghost use Rattle.yq_expr.{specs.EffectView.effect_at, specs.ManyKeys.{AreManyKeys, is_key_step, is_long_step}};
ghost use Rattle.yq_semantics.{specs.Changes.Room, specs.Judgement.{MatchFails, and_then}, specs.View.program_step};
ghost use Rattle.yq_eval.{specs.PlaceView.place_of, specs.TreeScalars.HasScalars};
ghost use Rattle.yq_semantics.specs.Changes as spec;

use crate::plans::effect::Action;
use crate::plans::steps::missing_steps;
use crate::terms::right_value::right_value;
use std::alloc::{AllocError, Global};
use yq_core::{DEPTH_LIMIT, Value};
use yq_eval::{FoundPlace, Missing};
use yq_planner::{holds_long_key, is_long_key, is_null};
use yq_semantics::{ExprError, PathStep, Refusal};

/// Whether a step is to the value of a key.
fn is_key_step(step: &PathStep) -> bool
    ensures { result ≡ is_key_step (program_step step.now) }
{
    matches!(step, PathStep::Key(_))
}

/// Whether each step is.
fn are_keys(steps: &[&PathStep]) -> bool
    ensures { result ≡ list_all (λ s. is_key_step (program_step s.now)) steps.now }
{
    steps.iter().all(|step| is_key_step(step))
}

/// Whether steps are more than collections may be nested, and keys alone.
fn are_many_keys(steps: &[&PathStep]) -> bool
    ensures { IsTrue result → AreManyKeys (map (λ s. program_step s.now) steps.now) }
{
    if steps.len() <= DEPTH_LIMIT {
        return false;
    }
    are_keys(steps)
}

/// Whether a step is to the value of too long a key.
fn is_long_step(alloc: Global, step: &PathStep) -> Result<bool, AllocError>
    ensures { IfOk result (λ b. b ≡ is_long_step (program_step step.now)) }
{
    match step {
        PathStep::Key(key) => is_long_key(alloc, key.as_str()),
        PathStep::Index(_) | PathStep::Each => Ok(false),
    }
}

/// Whether some step is.
fn some_step_is_long(alloc: Global, steps: &[&PathStep]) -> Result<bool, AllocError>
    ensures { IfOk result (λ b. b ≡ list_any (λ s. is_long_step (program_step s.now)) steps.now) }
{
    'steps: for step in steps {
        if is_long_step(alloc, step)? {
            return Ok(true);
        }
    }
    Ok(false)
}

/// Whether a key is too long among steps, or in a value.
fn some_key_is_long(alloc: Global, steps: &[&PathStep], value: &Value) -> Result<bool, AllocError>
    ensures { IfOk result (λ b. b ≡ (list_any (λ s. is_long_step (program_step s.now)) steps.now ||
        spec.has_long_key (value_node value.now))) }
{
    if some_step_is_long(alloc, steps)? {
        return Ok(true);
    }
    holds_long_key(alloc, value)
}

/// Refuses a value under so many missing keys at a place, whatever is there.
fn refuse(
    alloc: Global,
    place: &FoundPlace<'_, '_>,
    missing: &[&PathStep],
    value: &Value,
) -> Result<(), ExprError>
    requires many { AreManyKeys (map (λ s. program_step s.now) missing.now) }
    requires steps { map (λ s. program_step s.now) missing.now ≡ (place_of place.now).missing }
    ensures { IfErr result (λ e. (root : TreeNode) → MatchFails e (and_then (spec.all_allowed root)
        (spec.put_with_path (place_of place.now) (value_node value.now)))) }
{
    if some_key_is_long(alloc, missing, value)? {
        return Err(Refusal::KeyTooLong.error());
    }
    Err(Refusal::TooDeep.error())
}

/// Refuses what puts a value under so many missing keys at a place of document `doc`, as it would be
/// refused once the value were made, which would be nested so deep that its drop needed too much stack.
pub(crate) fn check_depth<'a, 't>(
    alloc: Global,
    doc: usize,
    effect: Action<'a, '_>,
    place: &FoundPlace<'a, 't>,
) -> Result<(), ExprError>
    requires { HasScalars (place_of place.now).node }
    ensures { IfErr result (λ e. (root : TreeNode) (room : Room) → MatchFails e
        (and_then (spec.all_allowed root) (effect_at doc room effect.entry (place_of place.now)))) }
{
    if let Missing::Nothing = place.missing {
        return Ok(());
    }
    let missing = missing_steps(alloc, place.missing)?;
    if !are_many_keys(&missing) {
        return Ok(());
    }
    match effect {
        Action::Put(value) => refuse(alloc, place, &missing, value),
        Action::Add(value) => {
            if is_null(value) {
                return Ok(());
            }
            refuse(alloc, place, &missing, value)
        }
        Action::Modify(terms) => {
            let value = right_value(alloc, doc, terms, place)?;
            refuse(alloc, place, &missing, &value)
        }
        Action::Remove | Action::SetComment(..) => Ok(()),
    }
}
