//! Where the documents of a text are among its rows.
ghost use Rattle.std.specs.Prelude.{◌≡◌, ◌++◌, ◌||◌, not, IfOk};
ghost use Rattle.yq_row_table.specs.View.{bound_view};
ghost use Rattle.yq_documents.specs.PartReading.{first_rows, some_begin};
ghost use Rattle.yq_compose.specs.Places as spec;

use std::alloc::{AllocError, Global};
use yq_documents::{DocumentRows, first_is_document};
use yq_row_table::{Bound, Rows, begins_document};

/// The gap before the first row of a part, or that after its rows where it has none.
fn first_gap<'t>(rows: &Rows<'t>, from: usize, bound: Bound<'t>) -> &'t str
    ensures { result.now ≡ spec.gap_before_row rows.now.rows from (bound_view bound.entry) }
{
    if from < bound.rows && from < rows.len() {
        return rows.gap(from);
    }
    bound.end
}

/// Adds a part, if it is a document.
fn push_document<'t>(
    documents: Vec<DocumentRows<'t>>,
    rows: &Rows<'t>,
    is_document: bool,
    from: usize,
    bound: Bound<'t>,
) -> Result<Vec<DocumentRows<'t>>, AllocError>
    ensures { IfOk result (λ ds. spec.documents_view ds.items ≡ spec.documents_view documents.entry.items
        ++ spec.part_row rows.now.rows is_document from (bound_view bound.entry)) }
{
    let mut documents = documents;
    if is_document {
        documents.push(DocumentRows {
            lead: first_gap(rows, from, bound),
            first: from,
            end: bound.rows,
        })?;
    }
    Ok(documents)
}

/// Where the documents of a text are among its rows, in order.
pub(crate) fn document_rows<'t>(
    alloc: Global,
    rows: &Rows<'t>,
) -> Result<Vec<DocumentRows<'t>>, AllocError>
    ensures { IfOk result (λ ds. spec.documents_view ds.items ≡ spec.all_document_rows rows.now.rows
        (first_rows rows.now.bounds || not (some_begin rows.now.bounds)) 0 rows.now.bounds) }
{
    let mut documents = Vec::with_capacity(alloc, rows.parts())?;
    let mut is_document = first_is_document(rows);
    let mut from = 0;
    let mut at = 0;
    'parts: while at < rows.parts() {
        let bound = rows.part(at);
        documents = push_document(documents, rows, is_document, from, bound)?;
        is_document = begins_document(bound.marker.as_bytes());
        from = bound.rows;
        at += 1;
    }
    Ok(documents)
}
