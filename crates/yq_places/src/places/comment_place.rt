//! Where the comments of entries and items are.
ghost use Rattle.std.specs.Prelude.{◌≡◌, ◌<◌, ◌≤◌, ◌+◌, length, option_map, slice_get, Some};
ghost use Rattle.yq_text.specs.Limit.{text_limit};
ghost use Rattle.yq_row_table.specs.View.{Slices};
ghost use Rattle.yq_documents.specs.Pieces.{span};
ghost use Rattle.yq_outline.specs.Extents.{IsRowsView};
ghost use Rattle.yq_places.specs.CommentReading as spec;
ghost use Rattle.yq_outline.specs.Extents as extents;

use yq_core::lines::split_at_break;
use yq_core::text::split_white;
use yq_documents::{Span, is_comment, last_run};
use yq_outline::Position;
use yq_row_table::Rows;
use yq_row_walk::{lines_before_mark, row_start};

/// The place of the comment in a tail that begins at a place.
fn tail_comment(start: usize, tail: &str) -> Option<Span>
    requires { start + length tail.now ≤ text_limit }
    ensures { option_map span result ≡ spec.tail_span start tail.now }
{
    if !is_comment(tail) {
        return None;
    }
    let (white, comment) = split_white(tail);
    let start = start + white.len();
    let end = start + split_at_break(comment).0.len();
    Some(Span { start, end })
}

/// The place of the line comment of a line.
pub fn line_comment_in(rows: &Rows<'_>, at: Position) -> Option<Span>
    requires within { at.row < length rows.now.rows }
    requires rows_view { IsRowsView rows.now }
    ensures { (x : Slices) → slice_get rows.now.rows at.row ≡ Some x → option_map span result ≡
        spec.line_comment_span (extents.row_start at.row rows.now) x at }
{
    if at.line != lines_before_mark(rows, at.row) {
        return None;
    }
    let row = rows.row(at.row);
    let start = row_start(rows, at.row) + rows.before_head(at.row) + row.head().len();
    tail_comment(start, row.tail())
}

/// The place of the run of comments that ends a gap, where the gap begins at a place.
fn gap_comment(start: usize, gap: &str) -> Option<Span>
    requires { start + length gap.now ≤ text_limit }
    ensures { option_map span result ≡ spec.gap_span start gap.now }
{
    let run = last_run(gap);
    if run.is_empty() {
        return None;
    }
    let end = start + gap.len();
    let start = end - run.len();
    Some(Span { start, end })
}

/// The place of the head comment of a line.
pub fn head_comment_in(rows: &Rows<'_>, at: Position) -> Option<Span>
    requires within { at.row < length rows.now.rows }
    requires rows_view { IsRowsView rows.now }
    ensures { (x : Slices) → slice_get rows.now.rows at.row ≡ Some x → option_map span result ≡
        spec.head_comment_span (extents.row_start at.row rows.now) x at }
{
    if at.line != 0 {
        return None;
    }
    gap_comment(row_start(rows, at.row), rows.row(at.row).gap())
}
