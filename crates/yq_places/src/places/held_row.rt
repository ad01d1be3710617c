//! Keys and dashes whose line is the last one of its row, with that row and what it holds after them.
ghost use Rattle.std.specs.Prelude.{◌≡◌, ◌<◌, ◌&&◌, length, not, slice_get, IfSome, Some};
ghost use Rattle.yq_core.specs.Text.{is_empty};
ghost use Rattle.yq_row_table.{specs.Rows.{Cut, Row as RowOf}, specs.View.{rows_of, rows_view}};
ghost use Rattle.yq_documents.specs.RowReading.{is_block_head};
ghost use Rattle.yq_outline.specs.Extents.{IsRowsView};
ghost use Rattle.yq_places.specs.PlacementViews as row_agrees;

use yq_documents::is_block_head;
use yq_outline::Position;
use yq_row_table::Rows;
use yq_row_walk::lines_before_mark;

/// A key or dash of a text whose line is the last one of its row, with what that row holds after it.
#[derive(Clone, Copy)]
pub struct HeldRow<'t> {
    /// How many rows of the text come before it.
    pub row: usize,
    /// Whether an inline node is written there.
    pub inline: bool,
    /// How many bytes of the text come before what is written there.
    pub start: usize,
    /// What is written there: an inline node, the header of a block scalar or nothing.
    pub head: &'t str,
    /// The end of the line after that, with its break.
    pub tail: &'t str,
}

/// Whether the head of a row is an inline node.
fn is_inline(head: &str) -> bool
    ensures { result ≡ (not (is_empty head.now) && not (is_block_head head.now)) }
{
    !(head.is_empty() || is_block_head(head.as_bytes()))
}

/// The row of a line, with what it holds after that, if it is its last one.
pub fn row_of_last<'t>(rows: &Rows<'t>, at: Position) -> Option<HeldRow<'t>>
    requires within { at.row < length rows.now.rows }
    requires rows_view { IsRowsView rows.now }
    ensures { IfSome result (λ x. (c : Cut) → rows.now ≡ rows_view c → (r : RowOf) →
        slice_get (rows_of c) at.row ≡ Some r → row_agrees.IsLastOf c at r x) }
{
    if at.line != lines_before_mark(rows, at.row) {
        return None;
    }
    let row = rows.row(at.row);
    let head = row.head();
    Some(HeldRow {
        row: at.row,
        inline: is_inline(head),
        start: rows.start(at.row) + rows.before_head(at.row),
        head,
        tail: row.tail(),
    })
}
