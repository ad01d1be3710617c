//! Changes that can't be written: with too long a key, or nested too deep.
ghost use Rattle.std.specs.Prelude.{◌≡◌, IfOk, false, suc};
ghost use Rattle.yq_core.specs.Values.{value_node};
ghost use Rattle.yq_flow_edits.specs.Valued.{IsValueTree};
ghost use Rattle.yq_planner.{specs.ChangeView.{addition_of, change_of}, specs.ValidChanges.{AddsValid, AreAddedValid, IsValidChange}};
ghost use Rattle.yq_planner.specs.ChangeAnswers.{is_overlong_entry, any_writes_long_key, any_is_too_deep};
ghost use Rattle.yq_semantics.specs.Changes as spec;

use crate::updating::change::{Addition, Change};
use crate::updating::limits::{holds_long_key, is_deep, is_deep_inside, is_long_key};
use std::alloc::{AllocError, Global};
use yq_core::Value;

/// Whether a key or one in a value is too long.
fn is_long_entry(alloc: Global, key: &str, value: &Value) -> Result<bool, AllocError>
    ensures long { IfOk result (λ b. b ≡ is_overlong_entry key.now value.now) }
    ensures valid { IfOk result (λ b. b ≡ false → IsValueTree (value_node value.now)) }
{
    if is_long_key(alloc, key)? {
        return Ok(true);
    }
    holds_long_key(alloc, value)
}

/// Whether too long a key would be written.
fn writes_long_key(alloc: Global, addition: &Addition) -> Result<bool, AllocError>
    ensures long { IfOk result (λ b. b ≡ spec.writes_long_key (addition_of addition.now)) }
    ensures valid { IfOk result (λ b. b ≡ false → AddsValid (addition_of addition.now)) }
{
    match addition {
        Addition::Appends(Some(key), value) => is_long_entry(alloc, key.as_str(), value),
        Addition::Appends(None, value) => holds_long_key(alloc, value),
        Addition::Overwrites(_, value) => holds_long_key(alloc, value),
    }
}

/// The same of some addition.
fn some_writes_long_key(alloc: Global, additions: &[Addition]) -> Result<bool, AllocError>
    ensures long { IfOk result (λ b. b ≡ any_writes_long_key additions.now) }
    ensures valid { IfOk result (λ b. b ≡ false → AreAddedValid additions.now) }
{
    'each: for addition in additions {
        if writes_long_key(alloc, addition)? {
            return Ok(true);
        }
    }
    Ok(false)
}

/// The same of a change.
#[tactic(auto, using(yq_semantics::proofs::Lists::list_any_map))]
pub(crate) fn is_too_long(alloc: Global, change: &Change) -> Result<bool, AllocError>
    ensures long { IfOk result (λ b. b ≡ spec.is_too_long (change_of change.now)) }
    ensures valid { IfOk result (λ b. b ≡ false → IsValidChange (change_of change.now)) }
{
    match change {
        Change::Replaces(value) => holds_long_key(alloc, value),
        Change::Adds(additions) => some_writes_long_key(alloc, additions),
        Change::Removes | Change::SetsComment(..) => Ok(false),
    }
}

/// Whether collections would be nested too deep by an addition to one below
/// so many.
fn adds_too_deep(outer: usize, addition: &Addition) -> bool
    ensures { result ≡ spec.is_deep (suc outer) (spec.value_in (addition_of addition.now)) }
{
    match addition {
        Addition::Appends(_, value) => is_deep_inside(outer, value),
        Addition::Overwrites(_, value) => is_deep_inside(outer, value),
    }
}

/// The same of some addition.
fn some_adds_too_deep(outer: usize, additions: &[Addition]) -> bool
    ensures { result ≡ any_is_too_deep outer additions.now }
{
    'each: for addition in additions {
        if adds_too_deep(outer, addition) {
            return true;
        }
    }
    false
}

/// The same of a change.
#[tactic(auto, using(yq_semantics::proofs::Lists::list_any_map))]
pub(crate) fn is_too_deep(outer: usize, change: &Change) -> bool
    ensures { result ≡ spec.is_too_deep outer (change_of change.now) }
{
    match change {
        Change::Replaces(value) => is_deep(outer, value),
        Change::Adds(additions) => some_adds_too_deep(outer, additions),
        Change::Removes | Change::SetsComment(..) => false,
    }
}
