//! What is asked of the rows of a document, row by row.
ghost use Rattle.std.specs.Prelude.{◌≡◌};
ghost use Rattle.yq_row_table.specs.View.{row_view};
ghost use Rattle.yq_outline.specs.RowWalk.{HasRows};
ghost use Rattle.yq_compose.specs.FitReading as spec;
ghost use Rattle.yq_documents.specs.Reading as reading;

use yq_core::{first_is, is_quoted};
use yq_documents::is_block_head;
use yq_outline::Stretch;
use yq_row_table::{Row, Rows};
use yq_scalar_reader::plain::holds_break;

/// Whether a head is a plain scalar.
fn is_plain(head: &str) -> bool
    ensures { result ≡ spec.is_plain_head head.now }
{
    let bytes = head.as_bytes();
    let other = is_quoted(bytes)
        || (first_is(b'*', bytes) || (first_is(b'[', bytes) || first_is(b'{', bytes)));
    !head.is_empty() && (!is_block_head(bytes) && !other)
}

/// Whether a break is in a row's anchor, after it or in its head.
fn has_break(row: &Row<'_>) -> bool
    ensures { result ≡ spec.has_break (row_view row.now) }
{
    holds_break(row.anchor()) || (holds_break(row.apart()) || holds_break(row.head()))
}

/// Whether a row is a plain scalar of several lines alone.
fn is_long(row: &Row<'_>) -> bool
    ensures { result ≡ spec.is_multiline_plain (row_view row.now) }
{
    row.dashes().is_empty() && (row.colon().is_empty() && (is_plain(row.head()) && has_break(row)))
}

/// Whether the first row of a document, if there is one, is no plain scalar of several lines alone.
pub(crate) fn has_short_root(rows: &Rows<'_>, document: Stretch) -> bool
    requires { HasRows rows.now document }
    ensures { (h : HasRows rows.now document) → result ≡ reading.has_short_root h.rows }
{
    if document.first >= document.end {
        return true;
    }
    !is_long(&rows.row(document.first))
}
