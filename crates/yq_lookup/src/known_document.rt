//! Documents whose parts are known, from which a search for later ones goes on.
ghost use Rattle.std.specs.Prelude.{◌≡◌, ◌<◌, ◌≤◌, ℕ, length, IfSome, List, None, option_map, true};
ghost use Rattle.yq_row_table.{specs.Rows.Cut, specs.View.{Bound, rows_view}};
ghost use Rattle.yq_lookup.specs.KnownDocuments.{AreKnownDocuments, DocumentStays, FirstRowStays, NumbersGoOn, IsKnownDocument};
ghost use Rattle.yq_lookup.specs.KnownDocuments.{part_by_number};
ghost use Rattle.yq_documents.specs.PartNumbers as numbers;

use yq_documents::first_is_document;
use yq_row_table::{Rows, begins_document};

/// A document whose part is known.
#[derive(Clone, Copy)]
pub struct KnownDocument {
    /// How many documents come before it.
    pub doc: usize,
    /// How many parts come before its own.
    pub part: usize,
}

/// The document on the way of a path, and the last one before it.
#[derive(Clone, Copy)]
pub struct KnownDocuments {
    pub last: Option<KnownDocument>,
    pub before: Option<KnownDocument>,
}

impl KnownDocuments {
    /// No documents.
    pub fn none() -> KnownDocuments
        ensures last { result.last ≡ None }
        ensures before { result.before ≡ None }
    {
        KnownDocuments {
            last: None,
            before: None,
        }
    }
}

/// Whether document `doc` is the last one that is known.
#[inline(always)]
pub(crate) fn is_last(known: KnownDocuments, doc: usize) -> bool {
    match known.last {
        Some(last) => last.doc == doc,
        None => false,
    }
}

/// Of documents that are known the last one that isn't after document `doc`, and the one before it.
fn known_upto(known: KnownDocuments, doc: usize) -> KnownDocuments
    ensures order { IfSome result.last (λ k. k.doc ≤ doc) }
    ensures known { (bs : List Bound) → AreKnownDocuments bs known → AreKnownDocuments bs result }
{
    if let Some(last) = known.last
        && last.doc <= doc
    {
        return known;
    }
    if let Some(before) = known.before
        && before.doc <= doc
    {
        return KnownDocuments {
            last: Some(before),
            before: None,
        };
    }
    KnownDocuments::none()
}

/// Where a search goes on from a document, or begins: a part, how many documents come before it, and whether it is one.
fn search_start(rows: &Rows<'_>, from: Option<KnownDocument>) -> (KnownDocument, bool)
    requires { IfSome from (IsKnownDocument rows.now.bounds) }
    ensures order { (doc : ℕ) → IfSome from (λ k. k.doc ≤ doc) → result.0.doc ≤ doc }
    ensures goes_on { NumbersGoOn rows.now.bounds result.0.part result.0.doc result.1 }
{
    match from {
        Some(known) => (known, true),
        None => (KnownDocument { doc: 0, part: 0 }, first_is_document(rows)),
    }
}

/// Document `doc` with its part, if there is one, and the last one before it, as documents that are known. The
/// search goes on from a known one that isn't after it.
pub(crate) fn find_document(rows: &Rows<'_>, known: KnownDocuments, doc: usize) -> KnownDocuments
    requires { AreKnownDocuments rows.now.bounds known }
    ensures part { option_map (λ k. k.part) result.last ≡ part_by_number doc rows.now.bounds }
    ensures within { IfSome result.last (λ k. k.part < length rows.now.bounds) }
    ensures known { AreKnownDocuments rows.now.bounds result }
{
    let from = known_upto(known, doc);
    let (start, begins) = search_start(rows, from.last);
    let mut count = start.doc;
    let mut is_document = begins;
    let mut before = from.before;
    'parts: for part in start.part..rows.parts() {
        let bound = rows.part(part);
        if is_document {
            let here = KnownDocument { doc: count, part };
            if count == doc {
                return KnownDocuments {
                    last: Some(here),
                    before,
                };
            }
            before = Some(here);
            count += 1;
        }
        is_document = begins_document(bound.marker.as_bytes());
    }
    KnownDocuments { last: None, before }
}

/// The number of the part that is document `doc`, both counted from 0. The search goes on from a known
/// document that isn't after it.
pub(crate) fn part_from(rows: &Rows<'_>, known: KnownDocuments, doc: usize) -> Option<usize>
    requires { AreKnownDocuments rows.now.bounds known }
    ensures value { (c : Cut) → rows.now ≡ rows_view c → result ≡ numbers.document_part doc c }
    ensures within { IfSome result (λ k. k < length rows.now.bounds) }
{
    if let Some(last) = known.last
        && last.doc == doc
        && last.part < rows.parts()
    {
        return Some(last.part);
    }
    let found = find_document(rows, known, doc).last?;
    Some(found.part)
}

/// Whether rows come before the first marker, and all of the first one is in front of so many bytes.
fn begins_with_row(rows: &Rows<'_>, front: usize) -> bool
    ensures { result ≡ true → (c : Cut) → rows.now ≡ rows_view c → FirstRowStays front c }
{
    if rows.len() < 2 || rows.parts() == 0 {
        return false;
    }
    if rows.start(1) >= front {
        return false;
    }
    rows.part(0).rows > 0
}

/// A document that is known, if the line of the marker before it, or a row of it where there is none, ends in front of so
/// many bytes.
pub(crate) fn document_before(
    rows: &Rows<'_>,
    known: Option<KnownDocument>,
    front: usize,
) -> Option<KnownDocument>
    requires { IfSome known (IsKnownDocument rows.now.bounds) }
    ensures { IfSome result (λ k. (c : Cut) → rows.now ≡ rows_view c → DocumentStays front c k) }
{
    let known = known?;
    if known.part == 0 {
        if !begins_with_row(rows, front) {
            return None;
        }
        return Some(known);
    }
    if known.part >= rows.parts() {
        return None;
    }
    let end = known.part - 1;
    let marker = rows.part(end).marker.len();
    if marker < front.saturating_sub(rows.part_end(end)) {
        Some(known)
    } else {
        None
    }
}
