//! The end of a collection, looked for from an item that is known.
ghost use Rattle.std.specs.Prelude.{◌≡◌, ◌⊎◌, ◌<◌, ◌≤◌, ◌+◌, length, IfSome};
ghost use Rattle.yq_outline.{specs.Outline.level, specs.Extents.IsRowsView, specs.RowWalk.{IsKnown, OfLine, lines_stop}};
ghost use Rattle.yq_row_walk.specs.Walk.{IsWalk, IsWalkLine, IsWalkPosition, OfWalkLines, walk_end};
ghost use Rattle.yq_outline.specs.RowWalk as spec;

use crate::places::node_place::{NodePlace, node_place};
use yq_core::Step;
use yq_outline::{KnownItem, Position, Stretch};
use yq_row_table::Rows;
use yq_row_walk::{Walk, counted, first_known, known_among, level_at, rows_under};

/// The row after a line and those after it that are deeper than a level, of which this is the first one: it is
/// looked for from an item among them that is known, or from the next row on.
#[inline(always)]
fn row_after(walk: &Walk<'_, '_>, at: Position, first: Position, floor: usize) -> usize
    requires walk { IsWalk walk.now }
    requires at { IsWalkLine walk.now at }
    requires first { (first.row ≡ at.row) ⊎ ((first.row ≡ at.row + 1) × (first.line ≡ 0)) }
    ensures later { at.row < result }
    ensures within { result ≤ walk.now.document.end }
    ensures value { result ≡ walk_end walk.now floor (at.row + 1) }
{
    let end = walk.document.end;
    match known_among(walk, first, floor) {
        Some(known) => rows_under(walk.rows, known.row, end, floor),
        None => rows_under(walk.rows, at.row + 1, end, floor),
    }
}

/// What is after the lines from one on that are deeper than a level, of which that is one.
pub fn after_all(walk: &Walk<'_, '_>, from: Position, floor: usize) -> Position
    requires walk { IsWalk walk.now }
    requires from { IsWalkLine walk.now from }
    requires deeper { OfLine walk.now.rows.now walk.now.document from (λ l. floor < level l) }
    ensures number { OfWalkLines walk.now (λ ls n. n result ≡ lines_stop (n from) floor ls) }
    ensures position { IsWalkPosition walk.now result }
    ensures line { result.line ≡ 0 }
    ensures later { from.row < result.row }
{
    Position {
        row: row_after(walk, from, from, floor),
        line: 0,
    }
}

/// The line after one of a row, of whose lines so many come before the last one.
#[inline(always)]
fn line_after(document: Stretch, at: Position, last: usize) -> Position
    requires { at.row < document.end }
    ensures { (result.row ≡ at.row) ⊎ ((result.row ≡ at.row + 1) × (result.line ≡ 0)) }
{
    let _document = document;
    if at.line < last {
        Position {
            row: at.row,
            line: at.line + 1,
        }
    } else {
        Position {
            row: at.row + 1,
            line: 0,
        }
    }
}

/// The row after those of a line of a level, in whose row so many come before the last one, and of the
/// lines under it.
#[inline(always)]
pub fn following_row(walk: &Walk<'_, '_>, at: Position, last: usize, floor: usize) -> usize
    requires walk { IsWalk walk.now }
    requires at { IsWalkLine walk.now at }
    ensures { result ≡ walk_end walk.now floor (at.row + 1) }
{
    let first = line_after(walk.document, at, last);
    row_after(walk, at, first, floor)
}

/// The last row of the collection of an item that is known, before that where a document ends, as an
/// item that is known.
fn known_last(rows: &Rows<'_>, known: KnownItem, end: usize) -> KnownItem
    requires known { IsKnown rows.now.rows known }
    requires within { end ≤ length rows.now.rows }
    requires rows_view { IsRowsView rows.now }
    ensures { IsKnown rows.now.rows result }
{
    let mut last = known;
    let mut index = known.index;
    'rows: for row in known.row..end {
        let level = level_at(rows, Position { row, line: 0 });
        if level < known.level {
            return last;
        }
        last = KnownItem {
            index,
            row,
            ..known
        };
        let Some(next) = counted(index, level == known.level) else {
            return last;
        };
        index = next;
    }
    last
}

/// The last row of the collection to which steps lead, if it is one of rows, as an item that is known.
pub fn known_end(walk: &Walk<'_, '_>, steps: &[Step]) -> Option<KnownItem>
    requires { IsWalk walk.now }
    ensures { IfSome result (IsKnown walk.now.rows.now.rows) }
{
    let (NodePlace::Lines(under, floor), _) = node_place(walk, steps)? else {
        return None;
    };
    if under.row >= walk.document.end {
        return None;
    }
    let known = match known_among(walk, under, floor) {
        Some(known) => known,
        None => first_known(walk.rows, under, floor)?,
    };
    Some(known_last(walk.rows, known, walk.document.end))
}
