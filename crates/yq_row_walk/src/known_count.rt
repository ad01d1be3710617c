//! The item of a row, counted from one that is known.
ghost use Rattle.std.specs.Prelude.{◌≡◌, ◌<◌, ◌≤◌, ◌+◌, length, IfSome, if◌then◌else◌};
ghost use Rattle.yq_outline.{specs.Extents.IsRowsView, specs.RowWalk.IsKnown};
ghost use Rattle.yq_row_walk.specs.Walk.{IsWalk};

use crate::known_item::known_among;
use crate::position::level_at;
use crate::walk::Walk;
use yq_outline::{KnownItem, Position};
use yq_row_table::Rows;

/// The first item among the lines from one on that are deeper than a level, as one that is known.
pub fn first_known(rows: &Rows<'_>, under: Position, floor: usize) -> Option<KnownItem>
    requires within { under.row < length rows.now.rows }
    requires rows_view { IsRowsView rows.now }
    ensures { IfSome result (IsKnown rows.now.rows) }
{
    let level = level_at(rows, under);
    if level <= floor {
        return None;
    }
    Some(KnownItem {
        under,
        floor,
        level,
        index: 1,
        row: under.row.checked_add(1)?,
    })
}

/// How many items there are with one more, if that is one.
pub fn counted(index: usize, is_item: bool) -> Option<usize>
    ensures { IfSome result (λ n. n ≡ (if is_item then index + 1 else index)) }
{
    if is_item {
        index.checked_add(1)
    } else {
        Some(index)
    }
}

/// The item of a row after one that is known.
#[inline(always)]
fn known_further(rows: &Rows<'_>, known: KnownItem, row: usize) -> Option<KnownItem>
    requires known { IsKnown rows.now.rows known }
    requires within { row < length rows.now.rows }
    requires rows_view { IsRowsView rows.now }
    ensures known { IfSome result (IsKnown rows.now.rows) }
    ensures row { IfSome result (λ k. k.row ≡ row) }
{
    if row < known.row {
        return None;
    }
    let mut index = known.index;
    'rows: for at in known.row..row {
        let level = level_at(rows, Position { row: at, line: 0 });
        if level < known.level {
            return None;
        }
        index = counted(index, level == known.level)?;
    }
    Some(KnownItem {
        index,
        row,
        ..known
    })
}

/// The item of a row in front of one that is known.
fn known_back(rows: &Rows<'_>, known: KnownItem, row: usize) -> Option<KnownItem>
    requires known { IsKnown rows.now.rows known }
    requires within { known.row ≤ length rows.now.rows }
    requires order { known.under.row < row }
    requires rows_view { IsRowsView rows.now }
    ensures known { IfSome result (IsKnown rows.now.rows) }
    ensures row { IfSome result (λ k. k.row ≡ row) }
{
    let mut at = known.row;
    let mut index = known.index;
    'rows: while row < at {
        at -= 1;
        if level_at(rows, Position { row: at, line: 0 }) == known.level {
            index -= 1;
        }
    }
    if at != row {
        return None;
    }
    Some(KnownItem {
        index,
        row,
        ..known
    })
}

/// The item of a row among the lines from one on that are deeper than a level, as one that is known.
/// The rows are counted from the known item on or back to it, or from the first one on.
#[inline(always)]
pub fn known_to(walk: &Walk<'_, '_>, under: Position, floor: usize, row: usize) -> Option<KnownItem>
    requires walk { IsWalk walk.now }
    requires order { under.row < row }
    requires within { row < length walk.now.rows.now.rows }
    ensures known { IfSome result (IsKnown walk.now.rows.now.rows) }
    ensures row { IfSome result (λ k. k.row ≡ row) }
{
    if let Some(known) = known_among(walk, under, floor) {
        if known.row <= row {
            return known_further(walk.rows, known, row);
        }
        if known.row - row <= row - under.row {
            return known_back(walk.rows, known, row);
        }
    }
    let first = first_known(walk.rows, under, floor)?;
    known_further(walk.rows, first, row)
}
