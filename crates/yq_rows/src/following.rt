//! A text and the places of its rows that follow a change.
ghost use Rattle.std.{specs.Prelude.{◌≡◌, ◌≤◌, ◌+◌, ◌-◌, OnOk, length, slice_index}, specs.Str.IsCharBoundary};
ghost use Rattle.yq_text.{specs.Halves.whole, specs.TextGapBuffer.buffer_text};
ghost use Rattle.yq_rows.{specs.Following.{ArePlacesOf, Follows, exchanged}, specs.RowAnswers.{CountsExchanged, exchanged_by}};
ghost use Rattle.yq_row_table.specs.Meter as lines;

use crate::Meter;
use crate::dropping::{drop_rows, drop_text, end_dropped};
use crate::exchanging::exchange;
use crate::kept::Kept;
use crate::session_reading::{read, region};
use crate::split::move_split;
use crate::touched::find_touched;
use std::alloc::{AllocError, Global};
use yq_row_table::Places;
use yq_text::{Halves, TextGapBuffer};

/// The byte at a place; 0 after the text.
#[tactic(auto, using(crate::proofs::LineStarts::byte_front, crate::proofs::LineStarts::byte_back))]
fn byte_at(text: Halves<'_>, at: usize) -> u8
    ensures { result ≡ slice_index (whole text.entry) at }
{
    let front = text.front.as_bytes();
    let back = text.back.as_bytes();
    if at < front.len() {
        return front[at];
    }
    let at = at - front.len();
    if at < back.len() { back[at] } else { 0 }
}

/// Whether a line begins at a place of a text.
#[tactic(auto, using(crate::proofs::LineStarts::begins_first, crate::proofs::LineStarts::begins_later))]
fn begins_line(text: &TextGapBuffer, at: usize) -> bool
    ensures { result ≡ lines.begins_line (buffer_text text.now) at }
{
    if at == 0 {
        return true;
    }
    byte_at(text.halves(), at - 1) == b'\n'
}

/// Writes what comes into a text in the place of the bytes that aren't kept; there is room for it.
fn write(text: &mut TextGapBuffer, kept: Kept, new: &str)
    requires within { kept.front + kept.back ≤ length (buffer_text text.old) }
    requires front { IsCharBoundary (buffer_text text.old) kept.front }
    requires back { IsCharBoundary (buffer_text text.old)
        (length (buffer_text text.old) - kept.back) }
    requires room { length new.now ≤ text.old.room }
    ensures { buffer_text text.new ≡ exchanged kept (buffer_text text.old) new.now }
{
    let gone = text.len() - kept.back - kept.front;
    text.move_split(kept.front);
    text.exchange(gone, new);
}

/// Replaces the bytes of a text that a change doesn't keep, and makes the places of its rows those of
/// the new text.
///
/// Only the rows and ends of parts that replace the touched ones are read, without the line of a marker
/// that stays; their lines are counted. All others stay as they are. The time is in proportion to what
/// is touched, and to what is between this change and the one before.
///
/// # Errors
///
/// Only lack of memory. The text and the places are then those of the old text.
pub fn follow(
    alloc: Global,
    text: &mut TextGapBuffer,
    places: &mut Places,
    kept: Kept,
    new: &str,
    meter: &mut Meter,
) -> Result<(), AllocError>
    requires { Follows (buffer_text text.old) places.old kept new.now }
    ensures text { buffer_text text.new ≡ exchanged_by result kept (buffer_text text.old) new.now }
    ensures placed { ArePlacesOf (buffer_text text.new) places.new }
    ensures counted { OnOk result (CountsExchanged text.old text.new kept meter.old meter.new) }
{
    move_split(text, places, kept.front)?;
    let begins = begins_line(text, kept.front);
    let touched = find_touched(places, text.len(), kept, begins);
    if new.is_empty()
        && let Some(end) = end_dropped(places, text.len(), touched, kept)
    {
        drop_text(text, touched.front.bytes, kept.front, meter);
        drop_rows(places, end, kept.front);
        return Ok(());
    }
    let region = region(alloc, text.halves(), touched, kept, new)?;
    let come = read(alloc, region.as_str(), touched, meter)?;
    text.reserve(new.len())?;
    exchange(places, touched, &come)?;
    write(text, kept, new);
    Ok(())
}
