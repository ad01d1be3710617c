//! Where rows and their lines begin and end.
ghost use Rattle.std.specs.Prelude.{◌≡◌, ◌<◌, ◌≤◌, ◌+◌, ℕ, List, length, slice_get, Some};
ghost use Rattle.yq_text.specs.Limit.{text_limit};
ghost use Rattle.yq_row_table.{specs.Grammar.IsCut, specs.Offsets.row_length, specs.Rows.{Cut, Row as RowOf}};
ghost use Rattle.yq_row_table.specs.View.{rows_of, rows_view, Slices, row_view};
ghost use Rattle.yq_outline.specs.Extents.{IsRowsView};
ghost use Rattle.yq_documents.specs.Pieces.{span};
ghost use Rattle.yq_places.specs.EntryReading as spec;
ghost use Rattle.yq_outline.specs.Extents as extents;

use crate::places::halves::less_break_len;
use yq_documents::{Span, is_block_head};
use yq_outline::Position;
use yq_row_table::{Row, Rows};
use yq_row_walk::{dash_at, head_place, row_len, row_start};
use yq_text::Halves;

/// Where a line begins, in bytes: at its dash, its key or its head.
pub fn line_start(rows: &Rows<'_>, position: Position) -> usize
    requires within { position.row < length rows.now.rows }
    requires rows_view { IsRowsView rows.now }
    ensures { (x : Slices) → slice_get rows.now.rows position.row ≡ Some x → result ≡
        spec.line_begin (extents.row_start position.row rows.now) x position.line }
{
    let row = rows.row(position.row);
    let dash = dash_at(row.dashes().as_bytes(), position.line);
    row_start(rows, position.row) + row.gap().len() + row.column() + dash
}

/// Where row `i` ends, with its break.
pub fn row_stop(rows: &Rows<'_>, i: usize) -> usize
    requires within { i < length rows.now.rows }
    requires rows_view { IsRowsView rows.now }
    ensures { (x : Slices) → slice_get rows.now.rows i ≡ Some x →
        result ≡ extents.row_start i rows.now + row_length x }
{
    row_start(rows, i) + row_len(&rows.row(i))
}

/// How long the tail and the raw lines of a row are less their last break, in bytes.
fn ending_len(row: &Row<'_>) -> usize
    requires { length (row_view row.now).tail + length (row_view row.now).raw ≤ text_limit }
    ensures value { result ≡ length (spec.row_ending (row_view row.now)) }
    ensures within { result ≤ length (row_view row.now).tail + length (row_view row.now).raw }
{
    if row.raw().is_empty() {
        less_break_len(Halves::of(row.tail()))
    } else {
        row.tail().len() + less_break_len(Halves::of(row.raw()))
    }
}

/// Where the last line of row `i` ends, in bytes, before its break.
pub fn row_end(rows: &Rows<'_>, i: usize) -> usize
    requires within { i < length rows.now.rows }
    requires rows_view { IsRowsView rows.now }
    ensures { (c : Cut) → rows.now ≡ rows_view c → (r : RowOf) → slice_get (rows_of c) i ≡ Some r →
        result ≡ length (spec.through_row i r c) }
{
    let (_, end) = head_place(rows, i);
    end + ending_len(&rows.row(i))
}

/// Where what a head spells ends, in bytes, by where it ends on its first line: a block scalar ends
/// after its last line.
fn head_end(row: &Row<'_>, end: usize) -> usize
    requires { end + (length (row_view row.now).tail + length (row_view row.now).raw) ≤ text_limit }
    ensures { result ≡ spec.head_finish end (row_view row.now) }
{
    if is_block_head(row.head().as_bytes()) {
        end + row.tail().len() + row.raw().len()
    } else {
        end
    }
}

/// The place of the head of row `i`, without its anchor.
pub fn head_extent(rows: &Rows<'_>, i: usize) -> Span
    requires within { i < length rows.now.rows }
    requires rows_view { IsRowsView rows.now }
    ensures { (t : List ℕ) (c : Cut) → IsCut t c → rows.now ≡ rows_view c → (r : RowOf) →
        slice_get (rows_of c) i ≡ Some r → span result ≡ spec.head_extent i r c }
{
    let (start, end) = head_place(rows, i);
    let row = rows.row(i);
    Span {
        start,
        end: head_end(&row, end),
    }
}
