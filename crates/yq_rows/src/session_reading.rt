//! What is read where rows and ends of parts are exchanged.
ghost use Rattle.std.{specs.Prelude.{◌≡◌, ◌-◌, ◌≤◌, ◌<◌, ◌^◌, IfOk, IfSome, length, take, drop}, specs.Str.IsCharBoundary};
ghost use Rattle.yq_text.specs.Halves.{whole};
ghost use Rattle.yq_rows.{specs.Reading.Comes, specs.RowAnswers.CountsRead};
ghost use Rattle.yq_core.specs.Strings.{GivesText};
ghost use Rattle.yq_rows.specs.Reading as spec;

use crate::kept::Kept;
use crate::touched::Touched;
use crate::{Meter, read_region};
use std::alloc::{AllocError, Global};
use yq_core::ReadError;
use yq_row_table::{EndPlace, PartEnds, Places};
use yq_text::Halves;

/// Rows and ends of parts that come in the place of others.
#[derive(Drop)]
pub(crate) struct NewRows {
    pub places: Places,
    /// How many bytes were read.
    pub read: usize,
    /// How many bytes they are, with the line of a marker that wasn't read.
    pub len: usize,
}

/// What is between two places of a text.
fn between<'t>(text: Halves<'t>, from: usize, to: usize) -> Halves<'t>
    requires end { IsCharBoundary (whole text) to }
    requires begin { IsCharBoundary (take to (whole text)) from }
    ensures { whole result ≡ drop from (take to (whole text.entry)) }
{
    text.split_at(to).0.split_at(from).1
}

/// The text of the rows and ends of parts that come in the place of those that a change touches.
pub(crate) fn region(
    alloc: Global,
    text: Halves<'_>,
    touched: Touched,
    kept: Kept,
    new: &str,
) -> Result<String, AllocError>
    requires edges { spec.AreEdges (whole text) touched kept }
    requires small { length (spec.region_text (whole text) touched kept new.now) < 2 ^ 32 }
    ensures { GivesText result (spec.region_text (whole text.entry) touched kept new.now) }
{
    let front = between(text, touched.front.bytes, kept.front);
    let back = between(
        text,
        text.len().saturating_sub(kept.back),
        touched.old.bytes,
    );
    let mut region = String::with_capacity(alloc, front.len() + new.len() + back.len())?;
    region.push_str(front.front)?;
    region.push_str(front.back)?;
    region.push_str(new)?;
    region.push_str(back.front)?;
    region.push_str(back.back)?;
    Ok(region)
}

/// The end of a part whose marker's line is at the end of a region and needn't be read: where it
/// begins a line still.
fn unread(region: &str, marked: Option<EndPlace>) -> Option<EndPlace>
    ensures { result ≡ spec.unread_end region.now marked }
{
    let end = marked?;
    let at = region.len().saturating_sub(end.marker());
    if at == 0 || region.as_bytes()[at - 1] == b'\n' {
        Some(end)
    } else {
        None
    }
}

/// What is read of a region at whose end the line of this one's marker needn't be.
fn read_part(region: &str, unread: Option<EndPlace>) -> &str
    requires { IfSome unread (λ e. IsCharBoundary region.now (length region.now - e.marker)) }
    ensures { result.now ≡ spec.without_marker region.now unread }
{
    match unread {
        Some(end) => {
            let at = region.len().saturating_sub(end.marker());
            region.split_at(at).0
        }
        None => region,
    }
}

/// The ends of parts that were read come to be those of a region: the last one is given the marker that
/// wasn't read, or, where others come after the region, the empty one after it goes.
fn settle(ends: &mut PartEnds, unread: Option<EndPlace>, more: bool)
    requires { 1 ≤ length ends.old }
    ensures { ends.new ≡ spec.settled_ends ends.old unread more }
{
    match unread {
        Some(end) => ends.set_last(ends.at(ends.len() - 1).marked_as(end)),
        None if more => ends.drop_last(),
        None => {}
    }
}

/// The rows and ends of parts of a region, which come in the place of those that are touched. The lines
/// that are read are counted: all but that of a marker which stays.
///
/// # Errors
/// Lack of memory alone.
pub(crate) fn read(
    alloc: Global,
    region: &str,
    touched: Touched,
    meter: &mut Meter,
) -> Result<NewRows, AllocError>
    requires { spec.IsRead region.now touched }
    ensures come { IfOk result (λ x. Comes region.now touched x) }
    ensures counted { CountsRead result meter.old meter.new (spec.read_part region.now touched.marked) }
{
    let unread = unread(region, touched.marked);
    let text = read_part(region, unread);
    let mut places = match read_region(alloc, text, meter) {
        Ok(rows) => rows.into_places(),
        Err(ReadError::Memory) => return Err(AllocError),
        // The region is read alone as the rows and ends of the new text that it is.
        Err(ReadError::Fault(_)) => unreachable!(),
    };
    settle(&mut places.ends, unread, touched.more);
    Ok(NewRows {
        places,
        read: text.len(),
        len: region.len(),
    })
}
