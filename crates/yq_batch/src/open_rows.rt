//! The places in rows at which operations put something, in any order, and at the end of a mapping.
ghost use Rattle.std.specs.Prelude.{◌≡◌, true, IfOk, Some};
ghost use Rattle.yq_text.specs.Halves.{whole};
ghost use Rattle.yq_documents.specs.Reading.{cut_of, read_at};
ghost use Rattle.yq_batch.specs.OpenRows as spec;

use crate::any_order::SlotRun;
use crate::change::HeadChange;
use crate::kept_breaks::keeps_first_break;
use crate::row_ends::EntriesEnd;
use crate::slot_order::{are_apart, are_in_order, each_once, end_at};
use crate::slots::{SlotPlace, slots_at};
use std::alloc::{AllocError, Global};
use yq_text::Halves;

/// The places of changes in order, each once, if each is known.
fn places_of(
    alloc: Global,
    changes: &[Option<HeadChange<'_>>],
) -> Result<Option<Vec<SlotPlace>>, AllocError> {
    let mut places = Vec::with_capacity(alloc, changes.len())?;
    'each: for change in changes {
        let Some(change) = change else {
            return Ok(None);
        };
        places.push(change.place)?;
    }
    places.sort_unstable();
    Ok(Some(each_once(alloc, &places)?))
}

/// Whether the last one of places is an offset, and the text's first break is near, and stays what it is.
fn ends_near(text: Halves<'_>, places: &[SlotPlace], at: usize) -> bool
    ensures { result ≡ true → spec.EndsNear (whole text.entry) at places.now }
{
    if !end_at(places, at) {
        return false;
    }
    keeps_first_break(text, places)
}

/// Whether something is between places, of which the last one is the end of a mapping, if that is known.
fn are_before_end(text: Halves<'_>, places: &[SlotPlace], end: &Option<EntriesEnd<'_>>) -> bool
    ensures { result ≡ true → spec.AreBeforeEnd (whole text.entry) places.now end.now }
{
    if !are_apart(places) {
        return false;
    }
    match end {
        Some(end) => ends_near(text, places, end.at),
        None => true,
    }
}

/// A run in which nothing was put at the places of changes, if they are in order in the text.
pub(crate) fn run_at(
    alloc: Global,
    text: Halves<'_>,
    changes: &[Option<HeadChange<'_>>],
    end: &Option<EntriesEnd<'_>>,
) -> Result<Option<SlotRun>, AllocError>
    requires { read_at (whole text) ≡ Some (cut_of (whole text)) }
    ensures { IfOk result (spec.MayBeginInRows (whole text.entry) end.now) }
{
    let Some(places) = places_of(alloc, changes)? else {
        return Ok(None);
    };
    if !are_in_order(&places, text.len()) {
        return Ok(None);
    }
    if !are_before_end(text, &places, end) {
        return Ok(None);
    }
    let Some(slots) = slots_at(alloc, &places)? else {
        return Ok(None);
    };
    Ok(Some(SlotRun {
        slots,
        size: text.len(),
        splices: Vec::new(alloc),
    }))
}
