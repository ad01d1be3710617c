//! Lines of a document that is checked, each with how deep it is.
ghost use Rattle.std.specs.Prelude.{◌≡◌, ◌<◌, ◌+◌, not, is_some, IsTrue};
ghost use Rattle.yq_outline.{specs.Bodies.borrowed, specs.Ends.{has_no_lines, part}, specs.RowWalk.{IsLine, IsPosition, OfLine, OfLines}};
ghost use Rattle.yq_compose.{specs.Ahead.IsAhead, specs.Checking.{IsChecked, IsReached}};
ghost use Rattle.yq_outline.specs.Outline as outline;
ghost use Rattle.yq_outline.specs.Positions as positions;

use crate::ahead::ahead_of;
use crate::checked::{Checked, row_key};
use yq_documents::Decoded;
use yq_outline::Position;
use yq_row_walk::{level_at, next};

/// A line of a document with how deep it is, or the end after its rows, which is at level 0.
#[derive(Clone, Copy)]
pub(crate) struct Reached<'a, 't> {
    pub(crate) position: Position,
    pub(crate) level: usize,
    /// What is made of the rows from its own on.
    pub(crate) decoded: &'a [Decoded<'t>],
}

/// A line, or the end, with how deep it is, by what is made from its row on.
#[inline(always)]
pub(crate) fn with_level<'a, 't>(
    x: Checked<'a, 't>,
    position: Position,
    decoded: &'a [Decoded<'t>],
) -> Reached<'a, 't>
    requires ready { IsChecked x }
    requires position { IsPosition x.rows.now x.document position }
    requires decoded { IsAhead x.decoded.now position.row decoded.now }
    ensures reached { IsReached x.entry.decoded.now x.entry.rows.now x.entry.document result }
    ensures position { result.position ≡ position }
{
    if position.row >= x.document.end {
        return Reached {
            position,
            level: 0,
            decoded,
        };
    }
    Reached {
        position,
        level: level_at(x.rows, position),
        decoded,
    }
}

/// The line after a line.
#[inline(always)]
pub(crate) fn line_after<'a, 't>(x: Checked<'a, 't>, at: Reached<'a, 't>) -> Reached<'a, 't>
    requires ready { IsChecked x }
    requires at { IsReached x.decoded.now x.rows.now x.document at }
    requires line { IsLine x.rows.now x.document at.position }
    ensures reached { IsReached x.entry.decoded.now x.entry.rows.now x.entry.document result }
    ensures number { OfLines x.entry.rows.now x.entry.document (λ ls n.
        n result.position ≡ n at.entry.position + 1) }
{
    let position = next(x.rows, x.document, at.position);
    with_level(x, position, ahead_of(at.decoded, position.row))
}

/// Whether a line is there, and is deeper than a level.
pub(crate) fn is_deeper(x: Checked<'_, '_>, at: Reached<'_, '_>, floor: usize) -> bool
    requires reached { IsReached x.decoded.now x.rows.now x.document at }
    ensures some { IsTrue result → at.entry.position.row < x.entry.document.end }
    ensures test { OfLines x.entry.rows.now x.entry.document (λ ls n.
        result ≡ not (has_no_lines (part ls (n at.entry.position) floor))) }
{
    floor < at.level
}

/// Whether a line is a node itself.
pub(crate) fn is_bare(x: Checked<'_, '_>, at: Reached<'_, '_>) -> bool
    requires reached { IsReached x.decoded.now x.rows.now x.document at }
    requires line { IsLine x.rows.now x.document at.position }
    ensures { OfLine x.entry.rows.now x.entry.document at.entry.position (λ l.
        result ≡ positions.has_no_mark l.mark) }
{
    at.level % 3 == 1
}

/// Whether a line has a key.
fn has_key(x: Checked<'_, '_>, at: Reached<'_, '_>) -> bool
    requires reached { IsReached x.decoded.now x.rows.now x.document at }
    requires line { IsLine x.rows.now x.document at.position }
    ensures { OfLine x.entry.rows.now x.entry.document at.entry.position (λ l.
        result ≡ is_some (outline.key_of l.mark)) }
{
    at.level % 3 == 2
}

/// The key of a line, if it has one.
#[inline(always)]
pub(crate) fn key_at<'a, 't>(x: Checked<'a, 't>, at: Reached<'a, 't>) -> Option<&'a str>
    requires ready { IsChecked x }
    requires reached { IsReached x.decoded.now x.rows.now x.document at }
    requires line { IsLine x.rows.now x.document at.position }
    ensures { OfLine x.entry.rows.now x.entry.document at.entry.position (λ l.
        borrowed result ≡ outline.key_of l.mark) }
{
    if !has_key(x, at) {
        return None;
    }
    Some(row_key(x, at.position.row, at.decoded))
}
