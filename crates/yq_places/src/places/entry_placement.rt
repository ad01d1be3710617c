//! What is at items and entries, by their rows.
ghost use Rattle.std.specs.Prelude.{◌≡◌, ◌<◌, true, List, ℕ};
ghost use Rattle.yq_text.specs.Halves.{whole};
ghost use Rattle.yq_row_table.{specs.Grammar.IsMark, specs.Rows.{Row as RowOf, rows_text}, specs.View.{slices, row_view}};
ghost use Rattle.yq_places.specs.PlacementReading.{AreRowsOf, HasEntry, BeginsRows, IsEntryIn};
ghost use Rattle.yq_places.specs.Placements as spec;
ghost use Rattle.yq_places.specs.PlacementViews as row_agrees;

use crate::places::halves::is_text;
use crate::places::held::{held_in, mark_of};
use crate::places::lines_cut::{line_end, lines_from};
use crate::places::piece::TextPiece;
use crate::places::placement::Placement;
use crate::places::row_place::line_start;
use crate::places::rows_of_entry::RowsOfEntry;
use yq_outline::Position;
use yq_row_table::{Row, Rows};
use yq_row_walk::{head_place, line_column};
use yq_text::Halves;

/// Whether a row is a node that is alone on its line.
pub fn is_alone(row: &Row<'_>) -> bool
    ensures { (r : RowOf) (rest : List ℕ) → slices r ≡ row_view row.now →
        IsMark r.mark r.content rest → result ≡ spec.is_alone r }
{
    row.dashes().is_empty() && row.colon().is_empty()
}

/// The node in row `i`, which is alone on its line.
pub fn lone_in<'t>(rows: &Rows<'t>, text: Halves<'t>, i: usize) -> TextPiece<'t>
    requires { BeginsRows (whole text) rows.now i }
    ensures { (e : spec.RowsOfEntry) (end : ℕ) → AreRowsOf (whole text.entry) rows.now e i end →
        spec.is_alone e.row ≡ true →
        row_agrees.piece_view result ≡ spec.lone (spec.before_entry e) e.row
        (rows_text e.under (spec.after_entry e)) }
{
    let row = rows.row(i);
    let head = row.head();
    let (start, end) = head_place(rows, i);
    let (front, after) = text.split_at(end);
    let (before, _) = front.split_at(start);
    TextPiece {
        before,
        text: head,
        after,
    }
}

/// The collection that begins on the line of a dash.
fn compact_in<'t>(rows: &Rows<'t>, text: Halves<'t>, at: RowsOfEntry) -> Placement<'t>
    requires entry { HasEntry (whole text) rows.now at }
    requires dash { at.line < at.dashes }
    ensures { (e : spec.RowsOfEntry) → IsEntryIn (whole text.entry) rows.now e at →
        row_agrees.placement_view result ≡ spec.compact_in e }
{
    is_text(text);
    let row = rows.row(at.row);
    let position = Position {
        row: at.row,
        line: at.line,
    };
    let lower = lines_from(rows, text, line_start(rows, position) + 1, at.end);
    let (_, comment, _) = line_end(row.tail());
    let mark = mark_of(&row, at.line, false, comment);
    Placement::Compact(mark, line_column(&row, at.line + 1), lower)
}

/// What comes after a key or dash after which no node is written on its line.
fn below<'t>(rows: &Rows<'t>, text: Halves<'t>, at: RowsOfEntry) -> Placement<'t>
    requires { HasEntry (whole text) rows.now at }
    ensures { (e : spec.RowsOfEntry) → IsEntryIn (whole text.entry) rows.now e at →
        row_agrees.placement_view result ≡ spec.below e e.under }
{
    let next = at.row + 1;
    if next == at.end {
        return Placement::Beside(held_in(rows, text, at));
    }
    let row = rows.row(next);
    if is_alone(&row) {
        return Placement::Alone(lone_in(rows, text, next));
    }
    Placement::Under(held_in(rows, text, at), row.column())
}

/// What is at an item or entry.
pub fn entry_placement<'t>(rows: &Rows<'t>, text: Halves<'t>, at: RowsOfEntry) -> Placement<'t>
    requires { HasEntry (whole text) rows.now at }
    ensures { (e : spec.RowsOfEntry) → IsEntryIn (whole text.entry) rows.now e at →
        row_agrees.placement_view result ≡ spec.entry_placement e }
{
    if at.line != at.dashes {
        return compact_in(rows, text, at);
    }
    match rows.block(at.row) {
        Some((_, indent)) => Placement::Block(held_in(rows, text, at), indent),
        None => {
            if rows.row(at.row).head().is_empty() {
                below(rows, text, at)
            } else {
                Placement::Beside(held_in(rows, text, at))
            }
        }
    }
}
