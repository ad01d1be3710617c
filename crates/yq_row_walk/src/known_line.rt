//! The line to which a path leads, where it is known, and where a walk along steps begins.
ghost use Rattle.std.specs.Prelude.{◌≡◌, map, IfSome, IsTrue};
ghost use Rattle.yq_core.specs.Entries.{tree_step};
ghost use Rattle.yq_row_walk.specs.Walk.{ComeAfter, IsWalk, IsWalkLineAt, WalksOn};

use crate::walk::Walk;
use yq_core::Step;
use yq_outline::Position;

/// Whether two steps are the same.
#[inline(always)]
fn is_same(step: &Step, other: &Step) -> bool
    ensures { IsTrue result → tree_step step.now ≡ tree_step other.now }
{
    match step {
        Step::Key(key) => match other {
            Step::Key(name) => key.as_str() == name.as_str(),
            Step::Index(_) => false,
        },
        Step::Index(index) => match other {
            Step::Key(_) => false,
            Step::Index(number) => *index == *number,
        },
    }
}

/// Whether two paths have the same steps.
#[inline(always)]
fn are_same(steps: &[Step], others: &[Step]) -> bool
    ensures { IsTrue result → map tree_step steps.now ≡ map tree_step others.now }
{
    let mut left = steps;
    let mut rest = others;
    'steps: while let [step, more @ ..] = left {
        let [other, after @ ..] = rest else {
            return false;
        };
        if !is_same(step, other) {
            return false;
        }
        left = more;
        rest = after;
    }
    rest.is_empty()
}

/// The line that is known, if it is that to which these steps lead.
#[inline(always)]
pub fn if_along(walk: &Walk<'_, '_>, steps: &[Step]) -> Option<Position>
    requires { IsWalk walk.now }
    ensures { IfSome result (IsWalkLineAt walk.now steps.now) }
{
    let Some(found) = walk.line else {
        return None;
    };
    let document = walk.document;
    if found.document.first != document.first || found.document.end != document.end {
        return None;
    }
    if !are_same(found.steps, steps) {
        return None;
    }
    Some(found.at)
}

/// The steps that come after others, if these are the first of them.
#[inline(always)]
fn steps_after<'s>(front: &[Step], steps: &'s [Step]) -> Option<&'s [Step]>
    ensures { IfSome result (λ left. ComeAfter front.now steps.now left.now) }
{
    let mut left = steps;
    let mut rest = front;
    'steps: while let [step, more @ ..] = rest {
        let [other, after @ ..] = left else {
            return None;
        };
        if !is_same(step, other) {
            return None;
        }
        left = after;
        rest = more;
    }
    Some(left)
}

/// Where a walk along steps begins, and the steps from there on: at the line that is known above, if they lead on
/// from there, else at the root.
#[inline(always)]
pub fn walk_start<'s>(walk: &Walk<'_, '_>, steps: &'s [Step]) -> (Option<Position>, &'s [Step])
    requires { IsWalk walk.now }
    ensures { WalksOn walk.now steps.now result.1.now result.0 }
{
    let Some(above) = walk.above else {
        return (None, steps);
    };
    let document = walk.document;
    if above.document.first != document.first || above.document.end != document.end {
        return (None, steps);
    }
    match steps_after(above.steps, steps) {
        Some(left) => (Some(above.at), left),
        None => (None, steps),
    }
}
