//! The entry of a key, looked for on both sides of an entry that is known.
ghost use Rattle.std.specs.Prelude.{◌<◌, ◌≤◌, length, IfSome, Some};
ghost use Rattle.yq_outline.{specs.Extents.IsRowsView, specs.RowWalk.{IsKnownIn, IsKnown}};
ghost use Rattle.yq_row_walk.specs.Walk.{HaveWalkKeys, IsWalk, IsWalkItem, IsWalkLine, IsWalkPosition, WalkFinds};
ghost use Rattle.yq_core.specs.Paths as steps;

use crate::known_count::counted;
use crate::known_item::{item_before, known_among};
use crate::position::level_at;
use crate::position_marks::is_key;
use crate::walk::Walk;
use yq_outline::{KnownItem, Position};
use yq_row_table::Rows;

/// The item after one that is known, before the row where a document ends.
fn item_after(rows: &Rows<'_>, known: KnownItem, end: usize) -> Option<KnownItem>
    requires known { IsKnown rows.now.rows known }
    requires within { end ≤ length rows.now.rows }
    requires rows_view { IsRowsView rows.now }
    ensures { IfSome result (IsKnownIn rows.now.rows known.under known.floor end) }
{
    let mut index = known.index;
    'rows: for row in known.row..end {
        let level = level_at(rows, Position { row, line: 0 });
        if level < known.level {
            return None;
        }
        let is_item = level == known.level;
        if is_item && known.row < row {
            return Some(KnownItem {
                index,
                row,
                ..known
            });
        }
        index = counted(index, is_item)?;
    }
    None
}

/// The line of an entry that is known among the lines of a document from one on that are deeper than a
/// level, if its key is this one.
fn keyed(
    walk: &Walk<'_, '_>,
    under: Position,
    floor: usize,
    known: KnownItem,
    key: &str,
) -> Option<Position>
    requires walk { IsWalk walk.now }
    requires under { IsWalkPosition walk.now under }
    requires keys { HaveWalkKeys walk.now under floor }
    requires known { IsWalkItem walk.now under floor known }
    ensures within { IfSome result (IsWalkLine walk.now) }
    ensures found { IfSome result (λ q. WalkFinds walk.now under floor (steps.To key.now) (Some q)) }
{
    let at = Position {
        row: known.row,
        line: 0,
    };
    let level = level_at(walk.rows, at);
    if level != known.level || !is_key(walk.rows, walk.document, at, level, key) {
        return None;
    }
    Some(at)
}

/// The line of a key's entry among the lines of a document from one on that are deeper than a level,
/// where one of them is known: it is looked for one by one on both sides, the nearest ones first.
pub fn key_near(walk: &Walk<'_, '_>, under: Position, floor: usize, key: &str) -> Option<Position>
    requires walk { IsWalk walk.now }
    requires under { IsWalkPosition walk.now under }
    requires keys { HaveWalkKeys walk.now under floor }
    ensures within { IfSome result (IsWalkLine walk.now) }
    ensures found { IfSome result (λ q. WalkFinds walk.now under floor (steps.To key.now) (Some q)) }
{
    let mut ahead = known_among(walk, under, floor);
    let mut back = ahead;
    'entries: for _ in walk.document.first..walk.document.end {
        if let Some(known) = ahead {
            let at = keyed(walk, under, floor, known, key);
            if at.is_some() {
                return at;
            }
            ahead = item_after(walk.rows, known, walk.document.end);
        }
        if let Some(known) = back {
            let at = keyed(walk, under, floor, known, key);
            if at.is_some() {
                return at;
            }
            back = item_before(walk.rows, known);
        }
        if ahead.is_none() && back.is_none() {
            return None;
        }
    }
    None
}
