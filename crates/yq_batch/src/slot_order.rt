//! Places of a text in order, each once, and with something between them.
ghost use Rattle.std.specs.Prelude.{◌≡◌, true};
ghost use Rattle.yq_batch.specs.RowEnds as ends;
ghost use Rattle.yq_batch.specs.Slots as spec;

use crate::slots::SlotPlace;
use std::alloc::{AllocError, Global};

/// Places, each once, if equal ones are next to each other.
pub(crate) fn each_once(alloc: Global, places: &[SlotPlace]) -> Result<Vec<SlotPlace>, AllocError> {
    let mut once = Vec::with_capacity(alloc, places.len())?;
    let mut last = None;
    let mut rest = places;
    'places: while let [place, after @ ..] = rest {
        if last != Some(*place) {
            once.push(*place)?;
        }
        last = Some(*place);
        rest = after;
    }
    Ok(once)
}

/// Whether a place comes before another one, with something between them, or a content ends where an item or entry
/// more comes.
fn comes_first(one: SlotPlace, other: SlotPlace) -> bool
    ensures { result ≡ true → spec.ComesFirst one other }
{
    if one.end < other.start {
        return true;
    }
    one.end == other.start && !one.more && other.more && one.start < one.end
}

/// The same of the first one of several, if there is one.
fn is_first(one: SlotPlace, others: &[SlotPlace]) -> bool
    ensures { result ≡ true → spec.IsBeforeFirst one others.now }
{
    match others {
        [other, ..] => comes_first(one, *other),
        [] => true,
    }
}

/// Whether places come one after the other in a text so long.
pub(crate) fn are_in_order(places: &[SlotPlace], size: usize) -> bool
    ensures { result ≡ true → spec.AreInOrder 0 places.now size }
{
    let mut at = 0;
    let mut rest = places;
    'places: while let [place, after @ ..] = rest {
        if place.start < at || place.end < place.start || !is_first(*place, after) {
            return false;
        }
        at = place.end;
        rest = after;
    }
    at <= size
}

/// Whether something is between a place and the first one of several, and no item or entry more is put at it.
fn is_apart(one: SlotPlace, others: &[SlotPlace]) -> bool
    ensures { result ≡ true → ends.LeavesRoom one others.now }
{
    match others {
        [other, ..] => one.end < other.start && !one.more,
        [] => true,
    }
}

/// Whether something is between places, and at the last one alone an item or entry more is put.
pub(crate) fn are_apart(places: &[SlotPlace]) -> bool
    ensures { result ≡ true → ends.LeaveRoom places.now }
{
    let mut rest = places;
    'places: while let [place, after @ ..] = rest {
        if !is_apart(*place, after) {
            return false;
        }
        rest = after;
    }
    true
}

/// Whether a place is an offset, if no others come after it.
fn is_last_at(one: SlotPlace, others: &[SlotPlace], at: usize) -> bool
    ensures { result ≡ true → ends.IsLastAt at one others.now }
{
    match others {
        [_, ..] => true,
        [] => one.start == at && one.end == at,
    }
}

/// Whether the last one of places is an offset.
pub(crate) fn end_at(places: &[SlotPlace], at: usize) -> bool
    ensures { result ≡ true → ends.EndAt at places.now }
{
    let mut rest = places;
    'places: while let [place, after @ ..] = rest {
        if !is_last_at(*place, after, at) {
            return false;
        }
        rest = after;
    }
    true
}
