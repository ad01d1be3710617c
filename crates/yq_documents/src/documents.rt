//! The documents of a text.
ghost use Rattle.std.{specs.Prelude.{◌≡◌, ◌<◌, ℕ, List, length, slice_get, Some, false, option_map, true}, specs.List.list_any};
ghost use Rattle.yq_outline.{specs.Names.{is_reference, line_names}, specs.Extents.IsRowsView};
ghost use Rattle.yq_row_table.{specs.Grammar.IsCut, specs.Rows.Row as RowOf, specs.View.{rows_of, rows_view}};
ghost use Rattle.yq_documents.{specs.Documents.Document, specs.Decoded.{IsDecodedBy, IsHeadDecoded}, specs.Located.document_at};
ghost use Rattle.yq_documents.{specs.Reading.{all_documents, cut_of, documents_of}, specs.Ready.TextIsReady};
ghost use Rattle.yq_documents.{specs.Stretches.{HasText, document_lines}, specs.Texts.texts_left};

use crate::comment::Comments;
use crate::decoded::{Decoded, DecodedHead};
use crate::of_row::{decoded_at, known_head};
use std::marker::Model;
use yq_outline::{Stretch, lines_shaped};
use yq_row_table::Rows;

/// The rows of a document among those of a text, and the gap that its lead ends.
#[derive(Clone, Copy)]
pub struct DocumentRows<'t> {
    pub lead: &'t str,
    pub first: usize,
    pub end: usize,
}

/// The documents of a text, by its rows and by what these spell that the text doesn't have byte for byte.
/// They are known by their text.
#[derive(Drop)]
pub struct Documents<'t> {
    text: &'t str,
    rows: Rows<'t>,
    documents: Vec<DocumentRows<'t>>,
    decoded: Vec<Decoded<'t>>,
    /// Whether an alias may be in it.
    refers: bool,
}

impl<'t> Model for Documents<'t> {
    ghost use Rattle.std.specs.Prelude.{ℕ, List};

    ghost Value = { List ℕ };

    ghost use Rattle.yq_documents.specs.Holding.{Holds};

    ghost view = { λ d. d.text.now };

    ghost invariant = { λ d. Holds d.text.now d.rows d.documents.items d.decoded.items d.refers };
}

impl<'t> Documents<'t> {
    ghost use Rattle.yq_documents.specs.Holding.{Holds};

    /// The documents of a text by what is kept of them.
    pub fn new(
        text: &'t str,
        rows: Rows<'t>,
        documents: Vec<DocumentRows<'t>>,
        decoded: Vec<Decoded<'t>>,
        refers: bool,
    ) -> Documents<'t>
        requires { Holds text.now rows documents.items decoded.items refers }
        ensures { result ≡ text.now }
    {
        Documents {
            text,
            rows,
            documents,
            decoded,
            refers,
        }
    }

    /// The text.
    pub fn text(&self) -> &'t str
        ensures { result.now ≡ self.now }
    {
        self.text
    }

    /// How many documents there are.
    pub fn count(&self) -> usize
        ensures { result ≡ length (documents_of self.now) }
    {
        self.documents.len()
    }

    /// The documents are ready for the meaning of updates: each is a tree, with no more collections
    /// nested than may be, and has the head comment of its first item or entry as its lead, where its
    /// root is a block collection.
    pub fn are_ready(&self)
        ensures { TextIsReady self.now }
    {
        let _rows = self.rows();
        lines_shaped();
    }

    /// The comment before document `i`, counted from 0, line by line.
    pub fn lead(&self, i: usize) -> Comments<'_>
        requires { i < length (documents_of self.now) }
        ensures { (d : Document) → document_at self.now i ≡ Some d → texts_left result ≡ d.lead }
    {
        Comments::of(self.documents[i].lead)
    }

    /// The rows of the text, and where its parts end.
    pub fn rows(&self) -> &Rows<'t>
        ensures cut { IsCut self.now (cut_of self.now) }
        ensures rows { result.now ≡ rows_view (cut_of self.now) }
        ensures sound { all_documents (cut_of self.now) ≡ true }
        ensures rows_view { IsRowsView result.now }
    {
        &self.rows
    }

    /// The rows without what else is kept.
    pub fn into_rows(self) -> Rows<'t>
        ensures { result ≡ rows_view (cut_of self.entry) }
    {
        self.rows
    }

    /// The rows of the text, and which of them are those of document `i`, counted from 0.
    pub fn document_rows(&self, i: usize) -> (&Rows<'t>, Stretch)
        requires { i < length (documents_of self.now) }
        ensures { HasText self.now i result.0.now result.1 }
    {
        let document = &self.documents[i];
        let stretch = Stretch {
            first: document.first,
            end: document.end,
        };
        (&self.rows, stretch)
    }

    /// What is made of row `i`, counted from 0, if anything is.
    pub fn decoded(&self, i: usize) -> Option<&Decoded<'t>>
        ensures { (r : RowOf) → slice_get (rows_of (cut_of self.now)) i ≡ Some r →
            IsDecodedBy self.now (cut_of self.now) (option_map (λ m. m.now) result) i r }
    {
        decoded_at(self.decoded.as_slice(), i)
    }

    /// What the head of row `i`, counted from 0, spells, where it is made, an alias or a flow collection.
    pub fn known_head(&self, i: usize) -> Option<DecodedHead<'_, 't>>
        ensures { (r : RowOf) → slice_get (rows_of (cut_of self.now)) i ≡ Some r →
            IsHeadDecoded (length self.now) (cut_of self.now) result i r }
    {
        let decoded = decoded_at(self.decoded.as_slice(), i);
        known_head(self.text, &self.rows, i, decoded)
    }

    /// Whether an alias may be in it.
    pub fn may_refer(&self) -> bool
        ensures { result ≡ false → (n : ℕ) →
            list_any is_reference (line_names (document_lines n self.now)) ≡ false }
    {
        self.refers
    }
}
