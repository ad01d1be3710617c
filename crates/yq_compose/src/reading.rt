//! A text that is cut into rows, read as documents.
ghost use Rattle.std.specs.Prelude.{◌≡◌, false, IfErr, IfOk};
ghost use Rattle.yq_core.specs.Answers.{IsOfText};
ghost use Rattle.yq_row_table.{specs.Grammar.IsCut, specs.Rows.Cut, specs.View.rows_view};
ghost use Rattle.yq_documents.{specs.Documents.document_parts, specs.Reading.{all_documents, cut_of}};
ghost use Rattle.yq_compose.{specs.Deciding.Decides, specs.Decoding.{AreAliasFree, AreDecoded, IsCutInto}};
ghost use Rattle.yq_compose.specs.Places.{AreLocated, all_sound};

use crate::checked::Checked;
use crate::document::check_document;
use crate::parts::document_rows;
use crate::row_decoding::{DecodedRows, decode_rows};
use std::alloc::Global;
use yq_core::ReadError;
use yq_documents::{DocumentRows, Documents};
use yq_outline::Stretch;
use yq_row_table::Rows;

/// The documents of a text, each checked by its rows.
fn check_documents<'t>(
    alloc: Global,
    text: &'t str,
    rows: &Rows<'t>,
    decoded: &DecodedRows<'t>,
    documents: &[DocumentRows<'t>],
) -> Result<(), ReadError>
    requires cut { IsCutInto text.now rows.now }
    requires decoded { AreDecoded text.now decoded.now.decoded.items }
    requires refers { decoded.now.refers ≡ false → AreAliasFree text.now }
    requires places { AreLocated text.now documents.now }
    ensures sound { Decides result (all_sound (document_parts (cut_of text.now))) }
    ensures fault { IfErr result IsOfText }
{
    let of_rows = decoded.decoded.as_slice();
    let mut at = 0;
    'documents: while at < documents.len() {
        let document = Stretch {
            first: documents[at].first,
            end: documents[at].end,
        };
        let x = Checked {
            text,
            rows,
            decoded: of_rows,
            document,
        };
        match check_document(alloc, x, decoded.refers) {
            Ok(()) => {}
            Err(e) => return Err(e),
        }
        at += 1;
    }
    Ok(())
}

/// The documents of a text that is cut into these rows.
pub fn read_rows<'t>(
    alloc: Global,
    text: &'t str,
    rows: Rows<'t>,
) -> Result<Documents<'t>, ReadError>
    requires { (c : Cut) × IsCut text.now c × (rows ≡ rows_view c) }
    ensures text { IfOk result (λ r. r ≡ text.now) }
    ensures documents { (c : Cut) → IsCut text.now c → Decides result (all_documents c) }
    ensures fault { IfErr result IsOfText }
{
    let decoded = match decode_rows(alloc, text, &rows) {
        Ok(decoded) => decoded,
        Err(e) => return Err(e),
    };
    let documents = document_rows(alloc, &rows)?;
    match check_documents(alloc, text, &rows, &decoded, &documents) {
        Ok(()) => {}
        Err(e) => return Err(e),
    }
    let DecodedRows { decoded, refers } = decoded;
    Ok(Documents::new(text, rows, documents, decoded, refers))
}
