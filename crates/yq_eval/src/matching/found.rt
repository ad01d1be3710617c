//! What a pipe finds: places in a list, or the items or values of one node, which are not listed.
ghost use Rattle.std.specs.Prelude.{◌≡◌, ◌==◌, IfSome, length};
ghost use Rattle.yq_semantics.{specs.Judgement.Judges, specs.Program.each, specs.View.program_step};
ghost use Rattle.yq_eval.{specs.FoundView.found_places, specs.PlaceView.places_of};
ghost use Rattle.yq_eval.specs.PlaceAnswers.{pipe_places, EndsInEach, HaveChildrenOf};
ghost use Rattle.yq_semantics.specs.Places as steps;

use crate::matching::pipe::{find, root_alone};
use crate::matching::place::{FoundPlace, Missing};
use crate::matching::traverse::{step_each, traverse};
use bumpalo::Bump;
use std::alloc::Global;
use yq_nodes::{Node, NodeKind};
use yq_semantics::{ExprError, PathStep, Stage};

/// The places that a pipe finds.
#[derive(Drop)]
pub enum FoundPlaces<'a, 't> {
    /// These.
    Listed(Vec<FoundPlace<'a, 't>>),
    /// Those of all items or values of the node at a place.
    Children(&'a FoundPlace<'a, 't>),
}

impl FoundPlaces<'_, '_> {
    /// Whether there are none.
    pub fn is_empty(&self) -> bool
        ensures { result ≡ (length (found_places self.now) == 0) }
    {
        match self {
            FoundPlaces::Listed(places) => places.is_empty(),
            FoundPlaces::Children(place) => place.node.children().next().is_none(),
        }
    }
}

/// The steps before the last one of a pipe that is a path, if that one leads to all items or values.
fn before_each(pipe: &[Stage]) -> Option<(&[PathStep], &PathStep)>
    ensures { IfSome result (λ x. EndsInEach pipe.now x.0.now x.1.now) }
{
    let [Stage::Path(steps)] = pipe else {
        return None;
    };
    let [front @ .., last] = steps.as_slice() else {
        return None;
    };
    match last {
        PathStep::Each => Some((front, last)),
        PathStep::Key(_) | PathStep::Index(_) => None,
    }
}

/// The one place that there is, if its node has items or values.
fn parent<'p, 'a, 't>(places: &'p [FoundPlace<'a, 't>]) -> Option<&'p FoundPlace<'a, 't>>
    ensures { IfSome result (λ p. HaveChildrenOf places.now p.now) }
{
    let [place] = places else {
        return None;
    };
    if let Missing::Further(..) = place.missing {
        return None;
    }
    match place.node.kind() {
        NodeKind::List | NodeKind::Map => Some(place),
        NodeKind::Alias | NodeKind::Scalar(_) => None,
    }
}

/// The places of all items or values of nodes.
fn all_of<'a, 't>(
    alloc: Global,
    bump: &'a Bump,
    last: &'a PathStep,
    places: &[FoundPlace<'a, 't>],
) -> Result<FoundPlaces<'a, 't>, ExprError>
    requires { program_step last.now ≡ each }
    ensures { Judges found_places result (steps.for_each (steps.step_on each)
        (places_of places.now)) }
{
    if let Some(place) = parent(places) {
        let place = bump.try_alloc(*place)?;
        return Ok(FoundPlaces::Children(place));
    }
    match step_each(alloc, bump, last, places) {
        Ok(next) => Ok(FoundPlaces::Listed(next)),
        Err(e) => Err(e),
    }
}

/// Where a pipe leads in document `doc`, which has that root.
pub fn find_places<'a, 't>(
    alloc: Global,
    bump: &'a Bump,
    doc: usize,
    pipe: &'a [Stage],
    root: Node<'a, 't>,
) -> Result<FoundPlaces<'a, 't>, ExprError>
    ensures { Judges found_places result (pipe_places doc pipe.now root.entry) }
{
    let Some((front, last)) = before_each(pipe) else {
        return match find(alloc, bump, doc, pipe, root) {
            Ok(places) => Ok(FoundPlaces::Listed(places)),
            Err(e) => Err(e),
        };
    };
    let start = root_alone(alloc, root)?;
    match traverse(alloc, bump, front, start) {
        Ok(places) => all_of(alloc, bump, last, &places),
        Err(e) => Err(e),
    }
}
