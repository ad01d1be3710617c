//! Where steps lead from places: each acts on all of them before the next one
//! does.
ghost use Rattle.std.specs.Prelude.{map};
ghost use Rattle.yq_semantics.{specs.Program.each, specs.View.program_step};
ghost use Rattle.yq_eval.specs.PlaceView.{place_of, places_of};
ghost use Rattle.yq_eval.specs.PlaceAnswers.{JudgesPlaces, AddsPlaces, PutsPlaces, places_in, step_along, missed_at, places_found};
ghost use Rattle.yq_eval.specs.PlaceAnswers.{places_below};
ghost use Rattle.yq_semantics.specs.Places as spec;

use crate::matching::place::{FoundPlace, Missing, NodePath, NodeStep};
use crate::matching::step::{index_step, key_step};
use crate::matching::steps::at_place;
use bumpalo::Bump;
use std::alloc::{AllocError, Global};
use yq_core::Kind;
use yq_nodes::{Node, NodeKind};
use yq_semantics::{ExprError, PathStep, Refusal};

/// Puts the place from which the step is missing after others. `[]` leads to
/// none there.
fn push_missing<'a, 't>(
    bump: &'a Bump,
    step: &'a PathStep,
    place: &FoundPlace<'a, 't>,
    places: &mut Vec<FoundPlace<'a, 't>>,
) -> Result<(), AllocError>
    ensures { PutsPlaces result places.old places.new (missed_at step.now place.now) }
{
    match step {
        PathStep::Key(_) | PathStep::Index(_) => {
            let front: &'a Missing<'a> = bump.try_alloc(place.missing)?;
            places.push(place.further(front, step))?;
            Ok(())
        }
        PathStep::Each => Ok(()),
    }
}

/// Puts the place of what was found after others, or that from which the step
/// is missing.
fn push_found<'a, 't>(
    bump: &'a Bump,
    step: &'a PathStep,
    place: &FoundPlace<'a, 't>,
    found: &Option<(NodeStep<'a>, Node<'a, 't>)>,
    places: &mut Vec<FoundPlace<'a, 't>>,
) -> Result<(), AllocError>
    ensures { PutsPlaces result places.old places.new (places_found step.now place.now found.now) }
{
    match found {
        None => push_missing(bump, step, place, places),
        Some((to, node)) => {
            let path: &'a NodePath<'a> = bump.try_alloc(place.path)?;
            places.push(FoundPlace::below(path, *to, node))?;
            Ok(())
        }
    }
}

/// Puts the places of all items or values of a place's node after others.
fn push_children<'a, 't>(
    bump: &'a Bump,
    place: &FoundPlace<'a, 't>,
    places: &mut Vec<FoundPlace<'a, 't>>,
) -> Result<(), AllocError>
    ensures { PutsPlaces result places.old places.new (places_below place.now) }
{
    let path: &'a NodePath<'a> = bump.try_alloc(place.path)?;
    let mut children = place.node.children();
    let mut before = 0;
    'each: while let Some(child) = children.next() {
        places.push(FoundPlace::nth_below(path, before, &child))?;
        before += 1;
    }
    Ok(())
}

/// Puts the places of all items or values of a place's node after others.
fn push_all<'a, 't>(
    bump: &'a Bump,
    place: &FoundPlace<'a, 't>,
    places: &mut Vec<FoundPlace<'a, 't>>,
) -> Result<(), ExprError>
    ensures { AddsPlaces result places.old places.new (spec.step_there each (place_of place.now)) }
{
    match place.node.kind() {
        NodeKind::Alias => Err(Refusal::ThroughAlias.error()),
        NodeKind::Scalar(Kind::Null) => Ok(()),
        NodeKind::Scalar(_) => Err(Refusal::NotASequence.error()),
        NodeKind::List | NodeKind::Map => Ok(push_children(bump, place, places)?),
    }
}

/// Puts the places to which a step leads from a place after others.
#[tactic(auto, using(crate::proofs::PlaceLaws::missed_on))]
fn push_along<'a, 't>(
    bump: &'a Bump,
    step: &'a PathStep,
    place: &FoundPlace<'a, 't>,
    places: &mut Vec<FoundPlace<'a, 't>>,
) -> Result<(), ExprError>
    ensures { AddsPlaces result places.old places.new (step_along step.now (place_of place.now)) }
{
    if let Missing::Further(..) = place.missing {
        return Ok(push_missing(bump, step, place, places)?);
    }
    let found = match step {
        PathStep::Key(key) => key_step(&place.node, key.as_str())?,
        PathStep::Index(index) => index_step(&place.node, *index)?,
        PathStep::Each => return push_all(bump, place, places),
    };
    Ok(push_found(bump, step, place, &found, places)?)
}

/// The same, and a refusal is there.
fn push_step<'a, 't>(
    alloc: Global,
    bump: &'a Bump,
    step: &'a PathStep,
    place: &FoundPlace<'a, 't>,
    places: &mut Vec<FoundPlace<'a, 't>>,
) -> Result<(), ExprError>
    ensures { AddsPlaces result places.old places.new (step_along step.now (place_of place.now)) }
{
    at_place(alloc, place, push_along(bump, step, place, places))
}

/// Where a step leads from places, one after the other.
pub(crate) fn step_each<'a, 't>(
    alloc: Global,
    bump: &'a Bump,
    step: &'a PathStep,
    places: &[FoundPlace<'a, 't>],
) -> Result<Vec<FoundPlace<'a, 't>>, ExprError>
    ensures { JudgesPlaces result (spec.for_each (step_along step.now) (places_of places.now)) }
{
    let mut next = Vec::with_capacity(alloc, places.len())?;
    'places: for place in places {
        push_step(alloc, bump, step, place, &mut next)?;
    }
    Ok(next)
}

/// Where steps lead from places.
pub(crate) fn traverse<'a, 't>(
    alloc: Global,
    bump: &'a Bump,
    steps: &'a [PathStep],
    start: Vec<FoundPlace<'a, 't>>,
) -> Result<Vec<FoundPlace<'a, 't>>, ExprError>
    ensures { JudgesPlaces result (spec.traverse (map program_step steps.now) (places_in start.entry)) }
{
    let mut places = start;
    'steps: for step in steps {
        places = step_each(alloc, bump, step, &places)?;
    }
    Ok(places)
}
