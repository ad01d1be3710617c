//! The steps of a place: those that are missing, and those before the last one.
ghost use Rattle.std.specs.Prelude.{◌≡◌, ◌++◌, ◌∷◌, [], IfOk, IfSome, IsTrue, map};
ghost use Rattle.yq_core.specs.Entries.{tree_step};
ghost use Rattle.yq_eval.specs.PlaceView.{missing_of, node_step_of, path_of};
ghost use Rattle.yq_semantics.specs.View.{program_step};

use std::alloc::{AllocError, Global};
use yq_core::Step;
use yq_eval::{Missing, NodePath, NodeStep};
use yq_semantics::PathStep;

/// Whether a step is that one.
fn is_step(step: NodeStep<'_>, other: &Step) -> bool
    ensures { IsTrue result → node_step_of step.entry ≡ tree_step other.now }
{
    match (step, other) {
        (NodeStep::Key(key), Step::Key(other)) => key == other.as_str(),
        (NodeStep::Index(index), Step::Index(other)) => index == *other,
        _ => false,
    }
}

/// Whether these are the steps of a path.
fn leads_by(path: NodePath<'_>, steps: &[Step]) -> bool
    ensures { IsTrue result → path_of path.entry ≡ map tree_step steps.now }
{
    let mut rest = path;
    let mut left = steps;
    'steps: while let NodePath::Below(front, step) = rest {
        let [others @ .., other] = left else {
            return false;
        };
        if !is_step(step, other) {
            return false;
        }
        rest = *front;
        left = others;
    }
    left.is_empty()
}

/// The last step of a path, if these are the steps before it.
pub(crate) fn step_below<'a>(path: NodePath<'a>, front: &[Step]) -> Option<NodeStep<'a>>
    ensures { IfSome result (λ s. path_of path.entry ≡ map tree_step front.now ++ node_step_of s ∷ []) }
{
    let NodePath::Below(above, step) = path else {
        return None;
    };
    if !leads_by(*above, front) {
        return None;
    }
    Some(step)
}

/// The steps that are missing.
pub(crate) fn missing_steps<'a>(
    alloc: Global,
    missing: Missing<'a>,
) -> Result<Vec<&'a PathStep>, AllocError>
    ensures { IfOk result (λ v. map (λ s. program_step s.now) v.items ≡ missing_of missing.entry) }
{
    let mut steps = Vec::new(alloc);
    let mut rest = missing;
    'steps: loop {
        match rest {
            Missing::Nothing => break,
            Missing::Further(front, last) => {
                steps.push(last)?;
                rest = *front;
            }
        }
    }
    steps.reverse();
    Ok(steps)
}
