//! Which parts of a text are documents.
ghost use Rattle.std.specs.Prelude.{◌≡◌, ◌<◌, ◌==◌, ◌-◌, ◌||◌, ◌&&◌, not, length, IfSome, if◌then◌else◌};
ghost use Rattle.yq_row_table.{specs.Rows.Cut, specs.View.rows_view};
ghost use Rattle.yq_documents.specs.PartNumbers as numbers;
ghost use Rattle.yq_documents.specs.PartReading as spec;

use yq_row_table::{Rows, begins_document};

/// Whether some marker is `---`.
fn some_begin(rows: &Rows<'_>) -> bool
    ensures { result ≡ spec.some_begin rows.now.bounds }
{
    let mut at = 0;
    'parts: while at < rows.parts() {
        if begins_document(rows.part(at).marker.as_bytes()) {
            return true;
        }
        at += 1;
    }
    false
}

/// Whether rows come before the first marker.
fn first_rows(rows: &Rows<'_>) -> bool
    ensures { result ≡ spec.first_rows rows.now.bounds }
{
    if rows.parts() == 0 {
        return false;
    }
    rows.part(0).rows != 0
}

/// Whether what comes before the first marker is a document: it has rows, or no `---` is in the text.
pub fn first_is_document(rows: &Rows<'_>) -> bool
    ensures { result ≡ (spec.first_rows rows.now.bounds || not (spec.some_begin rows.now.bounds)) }
{
    first_rows(rows) || !some_begin(rows)
}

/// Whether a part is the document before which so many are left.
fn is_sought(is_document: bool, left: usize) -> bool
    ensures { result ≡ (is_document && (left == 0)) }
{
    is_document && left == 0
}

/// How many documents are left before the sought one after a part.
fn left_past(is_document: bool, left: usize) -> usize
    ensures { result ≡ (if is_document then left - 1 else left) }
{
    if is_document {
        left.saturating_sub(1)
    } else {
        left
    }
}

/// The number of the part that is document `i`, where `first` says whether part 0 is a document.
fn number_in(rows: &Rows<'_>, first: bool, i: usize) -> Option<usize>
    ensures value { result ≡ spec.number_in first i 0 rows.now.bounds }
    ensures within { IfSome result (λ k. k < length rows.now.bounds) }
{
    let mut is_document = first;
    let mut left = i;
    'parts: for at in 0..rows.parts() {
        let bound = rows.part(at);
        if is_sought(is_document, left) {
            return Some(at);
        }
        left = left_past(is_document, left);
        is_document = begins_document(bound.marker.as_bytes());
    }
    None
}

/// The number of the part that is document `i`, both counted from 0.
pub fn document_part(rows: &Rows<'_>, i: usize) -> Option<usize>
    ensures value { (c : Cut) → rows.now ≡ rows_view c → result ≡ numbers.document_part i c }
    ensures within { IfSome result (λ k. k < length rows.now.bounds) }
{
    number_in(rows, first_is_document(rows), i)
}

/// How many rows come before part `i`.
pub fn rows_to(rows: &Rows<'_>, i: usize) -> usize
    requires { i < length rows.now.bounds }
    ensures { (c : Cut) → rows.now ≡ rows_view c → result ≡ numbers.rows_to i c }
{
    if i == 0 {
        return 0;
    }
    rows.part(i - 1).rows
}
