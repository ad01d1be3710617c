//! The steps of places, which refusals there have.
ghost use Rattle.std.specs.Prelude.{◌≡◌, IfOk, map};
ghost use Rattle.yq_core.specs.Entries.{tree_step};
ghost use Rattle.yq_eval.specs.PlaceView.{path_of};

use crate::matching::owned;
use crate::matching::place::{FoundPlace, NodePath};
use std::alloc::{AllocError, Global};
use yq_core::Step;
use yq_semantics::ExprError;

/// How many steps a path has.
fn path_len(path: NodePath<'_>) -> usize {
    let mut count = 0usize;
    let mut rest = path;
    'steps: while let NodePath::Below(front, _) = rest {
        count = count.saturating_add(1);
        rest = *front;
    }
    count
}

/// The steps of a path.
pub fn path_steps(alloc: Global, path: NodePath<'_>) -> Result<Vec<Step>, AllocError>
    ensures { IfOk result (λ v. map tree_step v.items ≡ path_of path.entry) }
{
    let mut steps = Vec::with_capacity(alloc, path_len(path))?;
    let mut rest = path;
    'steps: loop {
        match rest {
            NodePath::Root => break,
            NodePath::Below(front, last) => {
                steps.push(owned(alloc, last)?)?;
                rest = *front;
            }
        }
    }
    steps.reverse();
    Ok(steps)
}

/// What something gives at a place, or its refusal: there, if its place isn't known.
pub fn at_place<T: Drop>(
    alloc: Global,
    place: &FoundPlace<'_, '_>,
    found: Result<T, ExprError>,
) -> Result<T, ExprError>
    ensures { result ≡ found }
{
    match found {
        Err(ExprError::Fault(refused)) => {
            let steps = path_steps(alloc, place.path).ok();
            Err(ExprError::Fault(refused.or_at(steps)))
        }
        found => found,
    }
}
