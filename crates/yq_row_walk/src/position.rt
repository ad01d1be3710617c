//! Lines of a document by their rows, and how deep they are.
ghost use Rattle.std.specs.Prelude.{◌≡◌, ◌<◌, ◌≤◌, ◌+◌, ◌-◌, ◌*◌, drop, length, nat_lt, not, slice_get, take, if◌then◌else◌, IsTrue, Some};
ghost use Rattle.yq_outline.{specs.Ends.{IsEndOf, has_no_lines, part}, specs.Extents.IsRowsView};
ghost use Rattle.yq_outline.specs.RowWalk.{HasRows, IsLine, IsPosition, OfLines, deeper_rows};
ghost use Rattle.yq_row_table.specs.View.{row_view, Slices};
ghost use Rattle.yq_text.specs.Limit.{text_limit};
ghost use Rattle.yq_row_walk.specs.Walk.{AreMarks, IsLevel, IsLevelAt};
ghost use Rattle.yq_outline.specs.Extents as extents;
ghost use Rattle.yq_outline.specs.RowWalk as spec;

use crate::extent::{dash_at, lines_before_mark};
use yq_outline::{Position, Stretch};
use yq_row_table::{Row, Rows};

/// The column of a line of a row.
pub fn line_column(row: &Row<'_>, line: usize) -> usize
    requires { (row_view row.now).column + length (row_view row.now).dashes ≤ text_limit }
    ensures value { result ≡ spec.line_column line (row_view row.now) }
    ensures within { result ≤ (row_view row.now).column + length (row_view row.now).dashes }
{
    row.column() + dash_at(row.dashes().as_bytes(), line)
}

/// How deep a line of a row with dashes is, by how deep the row begins: three for each column, and 3 for a
/// dash, 2 for a key, or 1 for a node itself.
fn level_after(first: usize, dashes: &[u8], line: usize, has_colon: bool) -> usize
    requires { first + 3 * length dashes.now ≤ 3 * text_limit + 3 }
    ensures { result ≡ ((first + 3 * extents.dash_at line dashes.now) - 3) +
        (if nat_lt (extents.dash_at line dashes.now) (length dashes.now) then 3
        else (if has_colon then 2 else 1)) }
{
    let at = dash_at(dashes, line);
    let begin = (first + 3 * at).saturating_sub(3);
    if at < dashes.len() {
        return begin + 3;
    }
    if has_colon { begin + 2 } else { begin + 1 }
}

/// How deep a line is, given by its row's dashes.
#[inline(never)]
fn level_within(rows: &Rows<'_>, position: Position) -> usize
    requires within { position.row < length rows.now.rows }
    requires rows_view { IsRowsView rows.now }
    ensures { (x : Slices) → slice_get rows.now.rows position.row ≡ Some x →
        result ≡ spec.line_level position.line x }
{
    let first = rows.level(position.row);
    if !rows.has_dashes(position.row) {
        return first;
    }
    let dashes = rows.dashes(position.row).as_bytes();
    level_after(first, dashes, position.line, rows.has_colon(position.row))
}

/// How deep a line is.
#[inline(always)]
pub fn level_at(rows: &Rows<'_>, position: Position) -> usize
    requires within { position.row < length rows.now.rows }
    requires rows_view { IsRowsView rows.now }
    ensures { (x : Slices) → slice_get rows.now.rows position.row ≡ Some x →
        result ≡ spec.line_level position.line x }
{
    if position.line == 0 {
        return rows.level(position.row);
    }
    level_within(rows, position)
}

/// What the first line of a row begins with, as the order of marks in a column.
#[inline(always)]
fn first_rank(has_dashes: bool, has_colon: bool) -> usize
    ensures { result ≡ (if has_dashes then 3 else (if has_colon then 2 else 1)) }
{
    if has_dashes {
        return 3;
    }
    if has_colon { 2 } else { 1 }
}

/// What a line begins with, as the order of marks in a column.
#[inline(always)]
pub fn rank_at(rows: &Rows<'_>, position: Position) -> usize
    requires within { position.row < length rows.now.rows }
    requires rows_view { IsRowsView rows.now }
    ensures { (x : Slices) → slice_get rows.now.rows position.row ≡ Some x →
        result ≡ spec.line_rank position.line x }
{
    if position.line == 0 {
        return first_rank(rows.has_dashes(position.row), rows.has_colon(position.row));
    }
    match level_within(rows, position) % 3 {
        0 => 3,
        rank => rank,
    }
}

/// How deep a line is; 0 for the end after the rows of a document.
#[inline(always)]
pub fn level_or_end(rows: &Rows<'_>, document: Stretch, position: Position) -> usize
    requires rows_view { IsRowsView rows.now }
    requires document { HasRows rows.now document }
    ensures { IsLevelAt rows.now document position result }
{
    if position.row >= document.end {
        return 0;
    }
    level_at(rows, position)
}

/// The first row from one on, before another one, that doesn't begin deeper than a level, with how deep it
/// begins; the other one and 0 where there is none.
#[inline(always)]
fn following_row(rows: &Rows<'_>, from: usize, end: usize, level: usize) -> (usize, usize)
    requires order { from ≤ end }
    requires within { end ≤ length rows.now.rows }
    requires rows_view { IsRowsView rows.now }
    ensures value { result.0 ≡ from + deeper_rows level (take (end - from) (drop from rows.now.rows)) }
    ensures within { result.0 ≤ end }
    ensures level { result.0 < end → IsLevel rows.now (record { row = result.0; line = 0 }) result.1 }
    ensures none { end ≤ result.0 → result.1 ≡ 0 }
{
    'rows: for at in from..end {
        let found = level_at(rows, Position { row: at, line: 0 });
        if found <= level {
            return (at, found);
        }
    }
    (end, 0)
}

/// The first row from one on, before another one, that doesn't begin deeper than a level.
pub fn rows_under(rows: &Rows<'_>, from: usize, end: usize, level: usize) -> usize
    requires order { from ≤ end }
    requires within { end ≤ length rows.now.rows }
    requires rows_view { IsRowsView rows.now }
    ensures value { result ≡ from + deeper_rows level (take (end - from) (drop from rows.now.rows)) }
    ensures within { result ≤ end }
{
    following_row(rows, from, end, level).0
}

/// Whether a line is there, and is deeper than a level, by how deep it is.
#[inline(always)]
pub(crate) fn is_level_deeper(
    rows: &Rows<'_>,
    document: Stretch,
    position: Position,
    level: usize,
    floor: usize,
) -> bool
    requires position { IsPosition rows.now document position }
    requires level { IsLevelAt rows.now document position level }
    ensures some { IsTrue result → position.row < document.end }
    ensures test { OfLines rows.now document (λ ls n.
        result ≡ not (has_no_lines (part ls (n position) floor))) }
{
    floor < level
}

/// Whether a line is there, and is deeper than a level.
#[inline(always)]
pub fn is_deeper(rows: &Rows<'_>, document: Stretch, position: Position, floor: usize) -> bool
    requires rows_view { IsRowsView rows.now }
    requires document { HasRows rows.now document }
    requires position { IsPosition rows.now document position }
    ensures some { IsTrue result → position.row < document.end }
    ensures test { OfLines rows.now document (λ ls n.
        result ≡ not (has_no_lines (part ls (n position) floor))) }
{
    let level = level_or_end(rows, document, position);
    is_level_deeper(rows, document, position, level, floor)
}

/// What is after a line and those under it, by how deep the line is; with how deep what is after them is.
#[inline(always)]
pub(crate) fn after_level(
    rows: &Rows<'_>,
    document: Stretch,
    position: Position,
    level: usize,
) -> (Position, usize)
    requires rows_view { IsRowsView rows.now }
    requires document { HasRows rows.now document }
    requires position { IsLine rows.now document position }
    requires level { IsLevel rows.now position level }
    ensures end { OfLines rows.now document (λ ls n. IsEndOf ls (n position) (n result.0)) }
    ensures position { IsPosition rows.now document result.0 }
    ensures line { result.0.line ≡ 0 }
    ensures later { position.row < result.0.row }
    ensures level { IsLevelAt rows.now document result.0 result.1 }
{
    let (row, level) = following_row(rows, position.row + 1, document.end, level);
    (Position { row, line: 0 }, level)
}

/// What is after a line and those under it.
pub fn position_after(rows: &Rows<'_>, document: Stretch, position: Position) -> Position
    requires rows_view { IsRowsView rows.now }
    requires document { HasRows rows.now document }
    requires position { IsLine rows.now document position }
    ensures end { OfLines rows.now document (λ ls n. IsEndOf ls (n position) (n result)) }
    ensures position { IsPosition rows.now document result }
    ensures line { result.line ≡ 0 }
    ensures later { position.row < result.row }
{
    after_level(rows, document, position, level_at(rows, position)).0
}

/// The line after a line, by how many lines of its row come before the last one.
#[inline(always)]
pub(crate) fn next_by(
    rows: &Rows<'_>,
    document: Stretch,
    position: Position,
    marks: usize,
) -> Position
    requires document { HasRows rows.now document }
    requires position { IsLine rows.now document position }
    requires marks { AreMarks rows.now position.row marks }
    ensures number { OfLines rows.now document (λ ls n. n result ≡ n position + 1) }
    ensures position { IsPosition rows.now document result }
{
    if position.line < marks {
        Position {
            row: position.row,
            line: position.line + 1,
        }
    } else {
        Position {
            row: position.row + 1,
            line: 0,
        }
    }
}

/// The line after a line.
#[inline(always)]
pub fn next(rows: &Rows<'_>, document: Stretch, position: Position) -> Position
    requires document { HasRows rows.now document }
    requires position { IsLine rows.now document position }
    ensures number { OfLines rows.now document (λ ls n. n result ≡ n position + 1) }
    ensures position { IsPosition rows.now document result }
{
    next_by(
        rows,
        document,
        position,
        lines_before_mark(rows, position.row),
    )
}
