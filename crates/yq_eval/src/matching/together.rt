//! Stages that are judged together: all of them at one place before the next place.
ghost use Rattle.std.specs.Prelude.{◌≤◌, IfOk, IfSome, length};
ghost use Rattle.yq_semantics.specs.Pipes.{kept_place};
ghost use Rattle.yq_eval.{specs.PlaceView.place_of, specs.PlaceAnswers.{KeepsPlaces, KnowsKept, PutsPlaces, pipe_from, stage_from}};

use crate::matching::condition::holds;
use crate::matching::place::FoundPlace;
use std::alloc::{AllocError, Global};
use yq_semantics::Stage;

/// Whether a stage leads to places that it was given, and to no other ones.
fn only_keeps(stage: &Stage) -> bool {
    match stage {
        Stage::Path(steps) => steps.is_empty(),
        Stage::Select(_) => true,
    }
}

/// How many of stages lead to places that they were given alone, up to the first other one.
pub(crate) fn count_keeping(stages: &[Stage]) -> usize
    ensures { result ≤ length stages.now }
{
    let mut count = 0;
    'stages: for stage in stages {
        if !only_keeps(stage) {
            return count;
        }
        count += 1;
    }
    count
}

/// Whether a stage keeps a place in document `doc`; nothing, where it leads to another one or refuses.
fn stage_keeps<'a, 't>(
    alloc: Global,
    doc: usize,
    stage: &'a Stage,
    place: &FoundPlace<'a, 't>,
) -> Option<bool>
    ensures { KnowsKept result (stage_from doc stage.now place.now) (place_of place.now) }
{
    match stage {
        Stage::Path(steps) => match steps.as_slice() {
            [] => Some(true),
            _ => None,
        },
        Stage::Select(condition) => match holds(alloc, doc, condition, place) {
            Ok(kept) => Some(kept),
            Err(_refused) => None,
        },
    }
}

/// Whether stages keep a place in document `doc`; nothing, where one leads to another one or refuses.
fn stages_keep<'a, 't>(
    alloc: Global,
    doc: usize,
    stages: &'a [Stage],
    place: &FoundPlace<'a, 't>,
) -> Option<bool>
    ensures { KnowsKept result (pipe_from doc stages.now place.now) (place_of place.now) }
{
    'stages: for stage in stages {
        let Some(keeps) = stage_keeps(alloc, doc, stage, place) else {
            return None;
        };
        if !keeps {
            return Some(false);
        }
    }
    Some(true)
}

/// Puts a place after others, if it is kept.
fn push_if<'a, 't>(
    keeps: bool,
    place: &FoundPlace<'a, 't>,
    kept: &mut Vec<FoundPlace<'a, 't>>,
) -> Result<(), AllocError>
    ensures { PutsPlaces result kept.old kept.new (kept_place (place_of place.now) keeps) }
{
    if !keeps {
        return Ok(());
    }
    place.put(kept)
}

/// The places that stages keep, if that is known of each.
pub(crate) fn keep_each<'a, 't>(
    alloc: Global,
    doc: usize,
    stages: &'a [Stage],
    places: &[FoundPlace<'a, 't>],
) -> Result<Option<Vec<FoundPlace<'a, 't>>>, AllocError>
    ensures { IfOk result (λ o. IfSome o (λ v. KeepsPlaces doc stages.now places.now v.items)) }
{
    let mut kept = Vec::new(alloc);
    'places: for place in places {
        let Some(keeps) = stages_keep(alloc, doc, stages, place) else {
            return Ok(None);
        };
        push_if(keeps, place, &mut kept)?;
    }
    Ok(Some(kept))
}
