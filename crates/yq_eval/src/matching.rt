//! Matching: where pipes lead in a tree.
ghost use Rattle.std.specs.Prelude.{◌≡◌, IfOk};
ghost use Rattle.yq_core.specs.Entries.{tree_step};
ghost use Rattle.yq_eval.specs.PlaceView.{node_step_of};

mod along;
mod condition;
pub(crate) mod copy;
pub(crate) mod found;
pub(crate) mod pipe;
pub(crate) mod place;
mod step;
pub(crate) mod steps;
mod together;
pub(crate) mod traverse;

use self::place::NodeStep;
use std::alloc::{AllocError, Global};

/// The same step, which owns its key.
pub fn owned(alloc: Global, step: NodeStep<'_>) -> Result<yq_core::Step, AllocError>
    ensures { IfOk result (λ s. tree_step s ≡ node_step_of step.entry) }
{
    match step {
        NodeStep::Key(key) => Ok(yq_core::Step::Key(String::from_str(alloc, key)?)),
        NodeStep::Index(index) => Ok(yq_core::Step::Index(index)),
    }
}
