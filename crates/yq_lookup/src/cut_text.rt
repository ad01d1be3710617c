//! A text with its cut.
ghost use Rattle.std.{specs.Prelude.{◌≡◌, ℕ, IfSome, List, Some, true}, specs.Str.IsUtf8};
ghost use Rattle.yq_text.specs.Halves.{whole};
ghost use Rattle.yq_row_table.{specs.Grammar.IsCut, specs.View.rows_view};
ghost use Rattle.yq_documents.specs.Reading.{all_documents, cut_of, read_at};
ghost use Rattle.yq_outline.specs.RowWalk.{AreKnown, stretch_view};
ghost use Rattle.yq_places.specs.RowWalk.{HasCut, document_row_range};
ghost use Rattle.yq_row_walk.specs.Walk.{IsKnownLine, IsLineAbove};
ghost use Rattle.yq_lookup.specs.Knowledge.{AreKnownInRows, IsKnowledge, IsWay};
ghost use Rattle.yq_lookup.specs.KnownDocuments.{AreKnownDocuments, HasDocumentRows, KnowDocuments};

use crate::knowledge::{Knowledge, StepSearches};
use crate::known_document::{KnownDocuments, find_document, is_last};
use crate::line_above::{LineAbove, line_in_part};
use std::alloc::Global;
use std::marker::Model;
use std::mem;
use yq_documents::Documents;
use yq_outline::{KnownItem, Position, Stretch};
use yq_places::{Way, is_text};
use yq_row_table::Rows;
use yq_row_walk::KnownLine;
use yq_text::Halves;

/// A text that reads as documents, with its cut. It is known by its text.
#[derive(Drop)]
pub struct CutText<'d, 't> {
    pub(crate) text: Halves<'t>,
    pub(crate) rows: &'d Rows<'t>,
    /// The documents of which it is the text, if they are there.
    pub(crate) source: Option<&'d Documents<'t>>,
    pub(crate) known: Option<Vec<KnownItem>>,
    /// The lines on the way of the last path.
    pub(crate) way: Way<'d>,
    pub(crate) above: Option<LineAbove>,
    /// Where the line above the last path is.
    pub(crate) parent: Option<Position>,
    pub(crate) documents: KnownDocuments,
    /// The rows of the document that was looked for last, with its number.
    pub(crate) document: Option<(usize, Stretch)>,
    pub(crate) steps: StepSearches,
}

impl<'d, 't> Model for CutText<'d, 't> {
    ghost Value = { List ℕ };

    ghost view = { λ c. whole c.text };

    ghost invariant = { λ c. HasCut (whole c.text) c.rows.now ×
        AreKnownInRows c.rows.now c.known c.way c.above c.steps ×
        KnowDocuments c.rows.now.bounds c.documents c.document (whole c.text) ×
        IfSome c.source (λ d. d.now ≡ whole c.text) };
}

impl<'d, 't> CutText<'d, 't> {
    /// The text of documents, with its cut.
    pub fn of(documents: &'d Documents<'t>) -> CutText<'d, 't>
        ensures { result ≡ documents.now }
    {
        CutText {
            text: Halves::of(documents.text()),
            rows: documents.rows(),
            source: Some(documents),
            known: None,
            way: Way::none(),
            above: None,
            parent: None,
            documents: KnownDocuments::none(),
            document: None,
            steps: StepSearches::none(),
        }
    }

    /// A text with its cut, as `Documents::into_rows` gives it.
    pub fn new(text: &'t str, rows: &'d Rows<'t>) -> CutText<'d, 't>
        requires { HasCut text.now rows.now }
        ensures { result ≡ text.now }
    {
        CutText {
            text: Halves::of(text),
            rows,
            source: None,
            known: None,
            way: Way::none(),
            above: None,
            parent: None,
            documents: KnownDocuments::none(),
            document: None,
            steps: StepSearches::none(),
        }
    }

    /// The same of a text in two halves of which something is known, as `known_before` gives it: walks and
    /// searches may go on from there.
    pub fn resumed(text: Halves<'t>, rows: &'d Rows<'t>, known: Knowledge) -> CutText<'d, 't>
        requires cut { HasCut (whole text) rows.now }
        requires known { IsKnowledge rows.now known }
        ensures { result ≡ whole text.entry }
    {
        let Knowledge {
            items,
            documents,
            steps,
            above,
            part,
            parent,
        } = known;
        let above = line_in_part(rows, above, part);
        CutText {
            text,
            rows,
            source: None,
            known: Some(items),
            way: Way::none(),
            above,
            parent,
            documents,
            document: None,
            steps,
        }
    }

    /// The same text, where no items and no line are known.
    pub fn again(&self) -> CutText<'d, 't>
        ensures { result ≡ self.now }
    {
        CutText {
            text: self.text,
            rows: self.rows,
            source: self.source,
            known: None,
            way: Way::none(),
            above: None,
            parent: None,
            documents: self.documents,
            document: self.document,
            steps: self.steps,
        }
    }

    /// Takes the items that are known.
    pub(crate) fn take_items(&mut self, alloc: Global) -> Vec<KnownItem>
        ensures same { self.new ≡ self.old }
        ensures known { AreKnown (rows_view (cut_of self.old)).rows result.items }
    {
        match mem::replace(&mut self.known, None) {
            Some(known) => known,
            None => Vec::new(alloc),
        }
    }

    /// From now on these items are known, and the lines on the way of a path.
    pub(crate) fn put_items(&mut self, known: Vec<KnownItem>, way: Way<'d>)
        requires known { AreKnown (rows_view (cut_of self.old)).rows known.items }
        requires way { IsWay (rows_view (cut_of self.old)) way }
        ensures { self.new ≡ self.old }
    {
        self.known = Some(known);
        self.way = way;
    }

    /// From now on document `doc` is known, if there is one, with its rows, and the last one before it.
    pub(crate) fn to_document(&mut self, doc: usize)
        ensures { self.new ≡ self.old }
    {
        if self.rows_of_last(doc).is_some() {
            return;
        }
        let documents = self.documents_to(doc);
        self.documents = documents;
        let document = self.numbered_rows(doc);
        self.document = document;
    }

    /// The rows of document `doc`, if there is one, with its number.
    fn numbered_rows(&self, doc: usize) -> Option<(usize, Stretch)>
        ensures { HasDocumentRows result self.now }
    {
        let rows = self.stretch(doc)?;
        Some((doc, rows))
    }

    /// The documents that are known once document `doc` was looked for, if that isn't known already.
    fn documents_to(&self, doc: usize) -> KnownDocuments
        ensures { AreKnownDocuments (rows_view (cut_of self.now)).bounds result }
    {
        if self.rows_known(doc).is_some() || is_last(self.documents, doc) {
            return self.documents;
        }
        find_document(self.rows, self.documents, doc)
    }

    /// The text.
    pub fn whole(&self) -> Halves<'t>
        ensures text { whole result ≡ self.now }
        ensures utf8 { IsUtf8 self.now }
        ensures cut { IsCut self.now (cut_of self.now) }
        ensures documents { all_documents (cut_of self.now) ≡ true }
    {
        is_text(self.text);
        self.text
    }

    /// The text, of which the documents are read.
    pub fn text(&self) -> Halves<'t>
        ensures text { whole result ≡ self.now }
        ensures utf8 { IsUtf8 self.now }
        ensures read { read_at self.now ≡ Some (cut_of self.now) }
    {
        self.whole()
    }

    /// The rows of the text, and where its parts end.
    pub(crate) fn rows(&self) -> &'d Rows<'t>
        ensures { HasCut self.now result.now }
    {
        self.rows
    }

    /// The line that is known.
    pub(crate) fn line(&self) -> Option<&KnownLine<'d>>
        ensures { IfSome result (λ k. IsKnownLine (rows_view (cut_of self.now)) k.now) }
    {
        self.way.line.as_ref()
    }

    /// The line to which the steps before the last one of that path lead, if it is known.
    pub(crate) fn line_above(&self) -> Option<KnownLine<'d>>
        ensures { IfSome result (IsLineAbove (rows_view (cut_of self.now))) }
    {
        self.way.above
    }

    /// The items that are known.
    pub(crate) fn known(&self) -> &[KnownItem]
        ensures { AreKnown (rows_view (cut_of self.now)).rows result.now }
    {
        match &self.known {
            Some(known) => known.as_slice(),
            None => &[],
        }
    }

    /// The documents of which it is the text.
    fn source(&self) -> Option<&'d Documents<'t>>
        ensures { IfSome result (λ d. d.now ≡ self.now) }
    {
        self.source
    }

    /// The rows of document `doc`, if they are known.
    pub(crate) fn rows_known(&self, doc: usize) -> Option<Stretch>
        ensures { IfSome result (λ d. Some (stretch_view d) ≡
            document_row_range doc (cut_of self.now)) }
    {
        if let Some(rows) = self.rows_of_last(doc) {
            return Some(rows);
        }
        let documents = self.source()?;
        if doc >= documents.count() {
            return None;
        }
        let (_, stretch) = documents.document_rows(doc);
        Some(stretch)
    }

    /// The rows of document `doc`, if it was looked for last.
    #[inline(always)]
    fn rows_of_last(&self, doc: usize) -> Option<Stretch>
        ensures { IfSome result (λ d. Some (stretch_view d) ≡
            document_row_range doc (cut_of self.now)) }
    {
        let (last, rows) = self.document?;
        if last != doc {
            return None;
        }
        Some(rows)
    }

    /// The rows of the document that was looked for last, with its number.
    pub(crate) fn last_document(&self) -> Option<(usize, Stretch)>
        ensures { HasDocumentRows result self.now }
    {
        self.document
    }

    /// The documents that are known.
    pub(crate) fn documents(&self) -> KnownDocuments
        ensures { AreKnownDocuments (rows_view (cut_of self.now)).bounds result }
    {
        self.documents
    }
}
