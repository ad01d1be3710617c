//! Where a pipe leads, as if each stage acted on all places before the next one does.
ghost use Rattle.std.specs.Prelude.{◌≡◌, ◌∷◌, [], IfOk, map};
ghost use Rattle.yq_nodes.specs.Nodes.{node_of};
ghost use Rattle.yq_semantics.{specs.Places.{for_each, root_place}, specs.View.stage_of};
ghost use Rattle.yq_eval.specs.PlaceView.{place_of, places_of};
ghost use Rattle.yq_eval.specs.PlaceAnswers.{JudgesPlaces, AddsPlaces, FillsPlaces, places_in, pipe_places, pipe_places_from, kept_if};
ghost use Rattle.yq_semantics.specs.Pipes as spec;

use crate::matching::condition::holds;
use crate::matching::place::FoundPlace;
use crate::matching::together::{count_keeping, keep_each};
use crate::matching::traverse::traverse;
use bumpalo::Bump;
use std::alloc::{AllocError, Global};
use std::mem;
use yq_nodes::Node;
use yq_semantics::{Condition, ExprError, Stage};

/// Puts a place after others if the condition holds there.
fn push_kept<'a, 't>(
    alloc: Global,
    doc: usize,
    condition: &'a Condition,
    place: &FoundPlace<'a, 't>,
    places: &mut Vec<FoundPlace<'a, 't>>,
) -> Result<(), ExprError>
    ensures { AddsPlaces result places.old places.new (kept_if doc condition.now (place_of place.now)) }
{
    if holds(alloc, doc, condition, place)? {
        place.put(places)?;
    }
    Ok(())
}

/// Puts the places for which the condition holds into a list, in the place of what was there.
fn select_each<'a, 't>(
    alloc: Global,
    doc: usize,
    condition: &'a Condition,
    places: &[FoundPlace<'a, 't>],
    kept: &mut Vec<FoundPlace<'a, 't>>,
) -> Result<(), ExprError>
    ensures { FillsPlaces result kept.new (for_each (kept_if doc condition.now) (places_of places.now)) }
{
    kept.clear();
    'places: for place in places {
        push_kept(alloc, doc, condition, place, kept)?;
    }
    Ok(())
}

/// The places for which the condition holds. A list that isn't used any more becomes that of them, and theirs isn't
/// used after it.
fn select<'a, 't>(
    alloc: Global,
    doc: usize,
    condition: &'a Condition,
    places: Vec<FoundPlace<'a, 't>>,
    unused: &mut Vec<FoundPlace<'a, 't>>,
) -> Result<Vec<FoundPlace<'a, 't>>, ExprError>
    ensures { JudgesPlaces result (for_each (kept_if doc condition.now) (places_in places.entry)) }
{
    select_each(alloc, doc, condition, &places, unused)?;
    Ok(mem::replace(unused, places))
}

/// Where a stage leads from places.
fn stage_on<'a, 't>(
    alloc: Global,
    bump: &'a Bump,
    doc: usize,
    stage: &'a Stage,
    places: Vec<FoundPlace<'a, 't>>,
    unused: &mut Vec<FoundPlace<'a, 't>>,
) -> Result<Vec<FoundPlace<'a, 't>>, ExprError>
    ensures { JudgesPlaces result (spec.stage_on doc (stage_of stage.now) (places_in places.entry)) }
{
    match stage {
        Stage::Path(steps) => traverse(alloc, bump, steps, places),
        Stage::Select(condition) => select(alloc, doc, condition, places, unused),
    }
}

/// Where stages lead from places, one after the other. Two lists serve all conditions.
fn stages_on<'a, 't>(
    alloc: Global,
    bump: &'a Bump,
    doc: usize,
    stages: &'a [Stage],
    start: Vec<FoundPlace<'a, 't>>,
) -> Result<Vec<FoundPlace<'a, 't>>, ExprError>
    ensures { JudgesPlaces result (pipe_places_from doc stages.now start.entry) }
{
    let mut places = start;
    let mut unused = Vec::new(alloc);
    'stages: for stage in stages {
        places = match stage_on(alloc, bump, doc, stage, places, &mut unused) {
            Ok(next) => next,
            Err(e) => return Err(e),
        };
    }
    Ok(places)
}

/// Where stages lead from places: all of them at one place before the next one, if each leads to places that it was
/// given alone, and none refuses.
fn run_on<'a, 't>(
    alloc: Global,
    bump: &'a Bump,
    doc: usize,
    run: &'a [Stage],
    places: Vec<FoundPlace<'a, 't>>,
) -> Result<Vec<FoundPlace<'a, 't>>, ExprError>
    ensures { JudgesPlaces result (pipe_places_from doc run.now places.entry) }
{
    if let [] = run {
        return Ok(places);
    }
    match keep_each(alloc, doc, run, &places)? {
        Some(kept) => Ok(kept),
        None => stages_on(alloc, bump, doc, run, places),
    }
}

/// Where a part of a pipe leads from places: a stage, and a run after it.
fn part_on<'a, 't>(
    alloc: Global,
    bump: &'a Bump,
    doc: usize,
    part: &'a [Stage],
    places: Vec<FoundPlace<'a, 't>>,
) -> Result<Vec<FoundPlace<'a, 't>>, ExprError>
    ensures { JudgesPlaces result (pipe_places_from doc part.now places.entry) }
{
    let [stage, run @ ..] = part else {
        return Ok(places);
    };
    let mut unused = Vec::new(alloc);
    match stage_on(alloc, bump, doc, stage, places, &mut unused) {
        Ok(next) => run_on(alloc, bump, doc, run, next),
        Err(e) => Err(e),
    }
}

/// Where a pipe leads from places.
pub fn pipe_on<'a, 't>(
    alloc: Global,
    bump: &'a Bump,
    doc: usize,
    pipe: &'a [Stage],
    start: Vec<FoundPlace<'a, 't>>,
) -> Result<Vec<FoundPlace<'a, 't>>, ExprError>
    ensures { JudgesPlaces result (spec.pipe_on doc (map stage_of pipe.now) (places_in start.entry)) }
{
    let mut places = start;
    let mut rest = pipe;
    'parts: while let [_, after @ ..] = rest {
        let (part, others) = rest.split_at(count_keeping(after) + 1);
        places = part_on(alloc, bump, doc, part, places)?;
        rest = others;
    }
    Ok(places)
}

/// The place of a root alone.
pub(crate) fn root_alone<'a, 't>(
    alloc: Global,
    root: Node<'a, 't>,
) -> Result<Vec<FoundPlace<'a, 't>>, AllocError>
    ensures { IfOk result (λ v. places_in v ≡ root_place (node_of root.entry) ∷ []) }
{
    FoundPlace::of_root(&root).alone(alloc)
}

/// Where a pipe leads in document `doc`, which has that root.
pub fn find<'a, 't>(
    alloc: Global,
    bump: &'a Bump,
    doc: usize,
    pipe: &'a [Stage],
    root: Node<'a, 't>,
) -> Result<Vec<FoundPlace<'a, 't>>, ExprError>
    ensures { JudgesPlaces result (pipe_places doc pipe.now root.entry) }
{
    let start = root_alone(alloc, root)?;
    pipe_on(alloc, bump, doc, pipe, start)
}
