//! Reading bytes as documents.
ghost use Rattle.std.{specs.Prelude.{◌≡◌, ◌↔◌, ℕ, List, IfErr, IfOk, Some, MatchResult, true, false}, specs.Str.is_utf8};
ghost use Rattle.std.specs.Str.Lossy.{utf8_valid_len};
ghost use Rattle.yq_core.{specs.declared.fault.FaultKind.TheVariants.NotUtf8, specs.Answers.{Gives, IsOfText}};
ghost use Rattle.yq_core.specs.FaultPlace.{IsAtBadByte, IsFaultAt};
ghost use Rattle.yq_row_table.{specs.Grammar.IsCut, specs.Rows.Cut};
ghost use Rattle.yq_places.specs.Answers.{IsNotUtf8};
ghost use Rattle.yq_documents.{specs.Documents.{Document, ReadsDocuments}, specs.Ready.TextIsReady};
ghost use Rattle.yq_documents.specs.Reading as spec;

use simdutf8::compat::from_utf8;
use std::alloc::Global;
use yq_compose::read_rows;
use yq_core::fault_place::fault_at;
use yq_core::{FaultKind, ReadError, ReadFault};
use yq_documents::Documents;
use yq_outline::lines_shaped;
use yq_rows::scan;

/// The text that bytes are in UTF-8. Bytes that aren't UTF-8 are refused as `NotUtf8`, on the line
/// (from 1) of the first wrong byte.
pub fn text_of(bytes: &[u8]) -> Result<&str, ReadFault>
    ensures utf8 { MatchResult result (λ s. (is_utf8 bytes.now ≡ true) × (s.now ≡ bytes.now))
        (λ f. (is_utf8 bytes.now ≡ false) × (f.kind ≡ NotUtf8)) }
    ensures place { IfErr result (IsFaultAt bytes.now (utf8_valid_len bytes.now)) }
{
    match from_utf8(bytes) {
        Ok(text) => Ok(text),
        Err(error) => {
            let at = error.valid_up_to();
            Err(fault_at(FaultKind::NotUtf8, bytes, at))
        }
    }
}

/// Reads a text as documents.
fn read_text(alloc: Global, text: &str) -> Result<Documents<'_>, ReadError>
    ensures text { IfOk result (λ d. d ≡ text.now) }
    ensures exact { Gives spec.cut_of result (spec.checked_at text.now) }
    ensures fault { IfErr result IsOfText }
{
    let rows = match scan(alloc, text) {
        Ok(rows) => rows,
        Err(e) => return Err(e),
    };
    match read_rows(alloc, text, rows) {
        Ok(documents) => Ok(documents),
        Err(e) => Err(e),
    }
}

/// Reads bytes as documents.
///
/// Refused exactly where the grammar doesn't read them. Bytes that aren't UTF-8 are refused as
/// `NotUtf8`, before any other fault. The fault has its line, counted from 1.
#[tactic(auto, unfolding(yq_documents::specs::Reading::read_at))]
pub fn read(alloc: Global, bytes: &[u8]) -> Result<Documents<'_>, ReadError>
    // The bytes read as the documents.
    ensures found { IfOk result (λ d. ReadsDocuments bytes.now (spec.documents_of d)) }
    // Bytes that read as documents are read so, unless memory runs out.
    ensures only { (docs : List Document) → ReadsDocuments bytes.now docs →
        Gives spec.documents_of result (Some docs) }
    // The fault that bytes are no text comes where they are none.
    ensures not_utf8 { IsNotUtf8 result ↔ (is_utf8 bytes.now ≡ false) }
    // It is at the first byte that isn't UTF-8, and on its line.
    ensures bad_byte { IfErr result (IsAtBadByte bytes.now) }
    // The documents are known by the bytes, and their cut is what reading from left to right gives.
    ensures text { IfOk result (λ d. d ≡ bytes.now) }
    ensures exact { Gives spec.cut_of result (spec.read_at bytes.now) }
    // They are ready for the meaning of updates.
    ensures ready { IfOk result (λ d. TextIsReady d) }
{
    documents_ready();
    let text = match text_of(bytes) {
        Ok(text) => text,
        Err(fault) => return Err(ReadError::Fault(fault)),
    };
    match read_text(alloc, text) {
        Ok(documents) => Ok(documents),
        Err(ReadError::Memory) => Err(ReadError::Memory),
        Err(ReadError::Fault(fault)) => Err(ReadError::Fault(fault)),
    }
}

/// No bytes can be read in two ways.
pub fn one_reading()
    ensures { (bytes : List ℕ) (docs others : List Document) → ReadsDocuments bytes docs →
        ReadsDocuments bytes others → docs ≡ others }
{}

/// What reading from left to right gives is a text's cut, whose parts mean documents.
pub fn cut_read()
    ensures taken { (t : List ℕ) (c : Cut) → spec.checked_at t ≡ Some c →
        IsCut t c × (spec.all_documents c ≡ true) }
    ensures reads { (t : List ℕ) (c : Cut) → IsCut t c → spec.all_documents c ≡ true →
        spec.checked_at t ≡ Some c }
{}

/// Each document of bytes that read is a tree, with no more collections nested than may be, and has the
/// head comment of its first item or entry as its lead, where its root is a block collection.
pub fn documents_ready()
    ensures { (bytes : List ℕ) (docs : List Document) → ReadsDocuments bytes docs →
        TextIsReady bytes }
{
    lines_shaped();
}
