//! Keys and dashes of a text, with what they hold.
ghost use Rattle.std.specs.Prelude.{◌≡◌, ◌≤◌, ◌+◌, ◌||◌, length, not};
ghost use Rattle.yq_text.{specs.Halves.whole, specs.Limit.text_limit};
ghost use Rattle.yq_core.specs.Text.{is_empty};
ghost use Rattle.yq_row_table.specs.View.{row_view};
ghost use Rattle.yq_outline.specs.RowWalk.{line_column};
ghost use Rattle.yq_places.specs.PlacementReading.{HasEntry, IsEntryIn};
ghost use Rattle.yq_places.specs.RowPieces as pieces;
ghost use Rattle.yq_places.specs.Placements as spec;
ghost use Rattle.yq_places.specs.PlacementViews as row_agrees;

use crate::places::halves::is_text;
use crate::places::lines_cut::{either, line_end, lines_from};
use crate::places::rows_of_entry::RowsOfEntry;
use yq_row_table::{Row, Rows};
use yq_row_walk::{head_place, line_column};
use yq_text::Halves;

/// A key or dash of a text.
#[derive(Clone, Copy)]
pub struct EntryMark {
    /// Its column, counted from 0.
    pub column: usize,
    /// Whether it is a key.
    pub keyed: bool,
    /// Whether its row has an anchor before what is written after its last mark, or a comment after
    /// that.
    pub noted: bool,
}

/// A key or dash of a text, with what it holds.
#[derive(Clone, Copy)]
pub struct Held<'t> {
    /// The key or dash.
    pub mark: EntryMark,
    /// The text up to it, or to its anchor, with these.
    pub before: Halves<'t>,
    /// The white space after that.
    pub space: &'t str,
    /// What is written there: an inline node, the header of a block scalar or nothing.
    pub head: &'t str,
    /// The white space that ends its line, or comes before the line's comment.
    pub white: &'t str,
    /// The comment, if the line has one.
    pub comment: &'t str,
    /// The line's break, where lines are under it; empty where none are.
    pub line_break: &'t str,
    /// The lines under it, less the break of the last one.
    pub lines: Halves<'t>,
    /// The break that ends it all: of the last line under it, or of its own line.
    pub last: &'t str,
    /// The text after.
    pub after: Halves<'t>,
}

/// The key or dash of a line of a row that ends with a comment, or with none.
pub fn mark_of(row: &Row<'_>, line: usize, keyed: bool, comment: &str) -> EntryMark
    requires { (row_view row.now).column + length (row_view row.now).dashes ≤ text_limit }
    ensures column { result.column ≡ line_column line (row_view row.now) }
    ensures keyed { result.keyed ≡ keyed }
    ensures noted { result.noted ≡ (not (is_empty (row_view row.now).anchor) ||
        not (is_empty comment.now)) }
{
    EntryMark {
        column: line_column(row, line),
        keyed,
        noted: !row.anchor().is_empty() || !comment.is_empty(),
    }
}

/// Whether a row has a key.
fn has_key(row: &Row<'_>) -> bool
    ensures { result ≡ not (is_empty (row_view row.now).colon) }
{
    !row.colon().is_empty()
}

/// The white space before the head of a row. Without a head there is none, it is in the tail.
fn space_before<'t>(row: &Row<'t>) -> &'t str
    ensures { result.now ≡ pieces.space_before (row_view row.now) }
{
    if row.anchor().is_empty() {
        row.space()
    } else {
        row.apart()
    }
}

/// What the key or dash of rows holds.
pub fn held_in<'t>(rows: &Rows<'t>, text: Halves<'t>, at: RowsOfEntry) -> Held<'t>
    requires { HasEntry (whole text) rows.now at }
    ensures { (e : spec.RowsOfEntry) → IsEntryIn (whole text.entry) rows.now e at →
        row_agrees.held_view result ≡ spec.held e }
{
    is_text(text);
    let row = rows.row(at.row);
    let (_, end) = head_place(rows, at.row);
    let lower = lines_from(rows, text, end + row.tail().len(), at.end);
    let none = lower.is_empty();
    let space = space_before(&row);
    let head = row.head();
    let (before, _) = lower.before.split_at(end - (space.len() + head.len()));
    let (white, comment, line_break) = line_end(row.tail());
    Held {
        mark: mark_of(&row, at.dashes, has_key(&row), comment),
        before,
        space,
        head,
        white,
        comment,
        line_break: either(none, "", line_break),
        lines: lower.lines,
        last: either(none, line_break, lower.last),
        after: lower.after,
    }
}
