//! What lines of a document begin with, and whether they have a head, by their rows.
ghost use Rattle.std.specs.Prelude.{◌≡◌, ◌&&◌, is_some, nat_eq};
ghost use Rattle.yq_outline.{specs.Extents.IsRowsView, specs.Outline.Line, specs.RowWalk.{HasRows, IsLine, OfLine}};
ghost use Rattle.yq_row_walk.specs.Walk.{AreMarks, IsLevel};
ghost use Rattle.yq_outline.specs.Outline as outline;
ghost use Rattle.yq_outline.specs.Positions as positions;
ghost use Rattle.yq_core.specs.Paths as steps;

use crate::extent::lines_before_mark;
use crate::position::rank_at;
use crate::written_key::is_written;
use yq_outline::{Position, Stretch};
use yq_row_table::Rows;

/// Whether a line is a node itself.
#[inline(always)]
pub fn is_bare(rows: &Rows<'_>, document: Stretch, position: Position) -> bool
    requires rows_view { IsRowsView rows.now }
    requires document { HasRows rows.now document }
    requires position { IsLine rows.now document position }
    ensures { OfLine rows.now document position (λ l. result ≡ positions.has_no_mark l.mark) }
{
    rank_at(rows, position) == 1
}

/// Whether a line so deep is a node itself.
#[inline(always)]
pub(crate) fn is_bare_at(level: usize) -> bool
    ensures { (l : Line) → level ≡ outline.level l → result ≡ positions.has_no_mark l.mark }
{
    level % 3 == 1
}

/// Whether a line is the item of an index, counted from this line.
#[inline(always)]
pub fn is_item_at(rows: &Rows<'_>, document: Stretch, position: Position, index: usize) -> bool
    requires rows_view { IsRowsView rows.now }
    requires document { HasRows rows.now document }
    requires position { IsLine rows.now document position }
    ensures { OfLine rows.now document position (λ l. result ≡
        (nat_eq index 0 && steps.is_item (outline.key_of l.mark))) }
{
    index == 0 && rank_at(rows, position) != 2
}

/// Whether a line so deep is the item of an index, counted from this line.
#[inline(always)]
pub(crate) fn is_item(level: usize, index: usize) -> bool
    ensures { (l : Line) → level ≡ outline.level l →
        result ≡ (nat_eq index 0 && steps.is_item (outline.key_of l.mark)) }
{
    index == 0 && level % 3 != 2
}

/// Whether a line, by how deep it is, is the entry of a key.
#[inline(always)]
pub(crate) fn is_key(
    rows: &Rows<'_>,
    document: Stretch,
    position: Position,
    level: usize,
    key: &str,
) -> bool
    requires document { HasRows rows.now document }
    requires position { IsLine rows.now document position }
    requires level { IsLevel rows.now position level }
    ensures { OfLine rows.now document position (λ l. result ≡
        steps.key_is key.now (outline.key_of l.mark)) }
{
    if level % 3 != 2 {
        return false;
    }
    is_written(rows.key(position.row), key)
}

/// Whether a line has a head, by how many lines of its row come before the last one.
#[inline(always)]
pub(crate) fn has_head_by(
    rows: &Rows<'_>,
    document: Stretch,
    position: Position,
    marks: usize,
) -> bool
    requires document { HasRows rows.now document }
    requires position { IsLine rows.now document position }
    requires marks { AreMarks rows.now position.row marks }
    ensures { OfLine rows.now document position (λ l. result ≡ is_some l.head) }
{
    position.line == marks && rows.has_head(position.row)
}

/// Whether a line has a head.
#[inline(always)]
pub fn has_head(rows: &Rows<'_>, document: Stretch, position: Position) -> bool
    requires document { HasRows rows.now document }
    requires position { IsLine rows.now document position }
    ensures { OfLine rows.now document position (λ l. result ≡ is_some l.head) }
{
    has_head_by(
        rows,
        document,
        position,
        lines_before_mark(rows, position.row),
    )
}
