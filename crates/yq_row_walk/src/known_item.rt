//! Items and entries that are known, from which a walk over the rows of a collection goes on.
ghost use Rattle.std.specs.Prelude.{◌≡◌, ◌<◌, ◌≤◌, ◌+◌, length, IfSome, IsTrue};
ghost use Rattle.yq_outline.{specs.Extents.IsRowsView, specs.RowWalk.{GoesOn, IsKnownIn, IsKnown}};
ghost use Rattle.yq_row_walk.specs.Walk.{IsWalk, IsWalkItem, IsWalkPosition};

use crate::position::level_at;
use crate::walk::Walk;
use yq_outline::{KnownItem, Position};
use yq_row_table::Rows;

/// Whether an item is known among the lines from one on that are deeper than a level.
#[inline(always)]
fn is_among(known: KnownItem, under: Position, floor: usize) -> bool
    ensures under { IsTrue result → known.under ≡ under }
    ensures floor { IsTrue result → known.floor ≡ floor }
{
    known.under.row == under.row && known.under.line == under.line && known.floor == floor
}

/// The item that is known among the lines of a document from one on that are deeper than a level.
#[inline(always)]
pub fn known_among(walk: &Walk<'_, '_>, under: Position, floor: usize) -> Option<KnownItem>
    requires { IsWalk walk.now }
    ensures { IfSome result (IsWalkItem walk.now under floor) }
{
    let mut rest = walk.known;
    'items: while let [item, others @ ..] = rest {
        if is_among(*item, under, floor) && item.row < walk.document.end {
            return Some(*item);
        }
        rest = others;
    }
    None
}

/// The item of an index that isn't after a known one's, unless it begins the collection.
pub fn item_back(rows: &Rows<'_>, known: KnownItem, index: usize) -> Option<KnownItem>
    requires known { IsKnown rows.now.rows known }
    requires within { known.row ≤ length rows.now.rows }
    requires rows_view { IsRowsView rows.now }
    ensures known { IfSome result (IsKnownIn rows.now.rows known.under known.floor (known.row + 1)) }
    ensures index { IfSome result (λ k. k.index ≡ index) }
{
    let mut row = known.row;
    let mut at = known.index;
    'rows: while index < at && row.saturating_sub(known.under.row) > 1 {
        row -= 1;
        if level_at(rows, Position { row, line: 0 }) == known.level {
            at -= 1;
        }
    }
    if at != index {
        return None;
    }
    Some(KnownItem {
        index,
        row,
        ..known
    })
}

/// The item before one that is known, unless it begins the collection.
pub fn item_before(rows: &Rows<'_>, known: KnownItem) -> Option<KnownItem>
    requires known { IsKnown rows.now.rows known }
    requires within { known.row ≤ length rows.now.rows }
    requires rows_view { IsRowsView rows.now }
    ensures { IfSome result (IsKnownIn rows.now.rows known.under known.floor (known.row + 1)) }
{
    item_back(rows, known, known.index - 1)
}

/// The item that is known, or one before it, if the way to an item from there is no longer.
#[inline(always)]
fn known_for(walk: &Walk<'_, '_>, under: Position, floor: usize, index: usize) -> Option<KnownItem>
    requires { IsWalk walk.now }
    ensures known { IfSome result (IsWalkItem walk.now under floor) }
    ensures index { IfSome result (λ k. k.index ≤ index) }
{
    let known = known_among(walk, under, floor)?;
    if known.index <= index {
        return Some(known);
    }
    if known.index - index > index {
        return None;
    }
    item_back(walk.rows, known, index)
}

/// Where the walk to an item begins, among the lines from one on that are deeper than a level, and the
/// index of the item from there on.
#[inline(always)]
pub fn walk_begin(
    walk: &Walk<'_, '_>,
    under: Position,
    floor: usize,
    index: usize,
) -> (Position, usize)
    requires walk { IsWalk walk.now }
    requires under { IsWalkPosition walk.now under }
    ensures position { IsWalkPosition walk.now result.0 }
    ensures found { GoesOn walk.now.rows.now walk.now.document floor under index
        result.0 result.1 }
{
    let Some(known) = known_for(walk, under, floor, index) else {
        return (under, index);
    };
    let at = Position {
        row: known.row,
        line: 0,
    };
    if level_at(walk.rows, at) > known.level {
        return (under, index);
    }
    (at, index - known.index)
}
