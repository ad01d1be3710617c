//! What is known of the rows of a text, from which walks and searches go on.
ghost use Rattle.std.specs.Prelude.{◌≡◌, IfSome, List};
ghost use Rattle.yq_row_table.{specs.Rows.Cut, specs.View.{RowsView, Slices, rows_view}};
ghost use Rattle.yq_outline.specs.Extents.{IsRowsView};
ghost use Rattle.yq_places.specs.StepReading.{IsSearched};
ghost use Rattle.yq_lookup.specs.Knowledge.{AreSearches, IsKnowledge, SearchesStay};

use crate::known_document::KnownDocuments;
use crate::line_above::LineAbove;
use std::alloc::Global;
use yq_outline::{KnownItem, Position};
use yq_places::{StepSearch, searched_before};
use yq_row_table::Rows;

/// How far the rows of documents were searched for the first sequence, and the first mapping, under a key.
#[derive(Clone, Copy)]
pub struct StepSearches {
    pub sequences: Option<StepSearch>,
    pub mappings: Option<StepSearch>,
}

/// What is known of a text: of each collection on the way of a path the item or entry, documents by the
/// numbers of their parts, how far steps were searched, and a line to which steps lead.
#[derive(Drop)]
pub struct Knowledge {
    pub items: Vec<KnownItem>,
    pub documents: KnownDocuments,
    pub steps: StepSearches,
    /// A line to which steps lead, wherever its document ends.
    pub(crate) above: Option<LineAbove>,
    /// How many parts come before that document.
    pub(crate) part: usize,
    /// Where the line above the last path was.
    pub(crate) parent: Option<Position>,
}

impl StepSearches {
    /// No searches.
    pub fn none() -> StepSearches
        ensures { (ss : List Slices) → AreSearches ss result }
    {
        StepSearches {
            sequences: None,
            mappings: None,
        }
    }

    /// The search for sequences, or for mappings.
    pub(crate) fn of(self, dashes: bool) -> Option<StepSearch>
        ensures { (ss : List Slices) → AreSearches ss self → IfSome result (IsSearched dashes ss) }
    {
        if dashes {
            self.sequences
        } else {
            self.mappings
        }
    }
}

impl Knowledge {
    /// Of each text this is known: nothing.
    pub fn none(alloc: Global) -> Knowledge
        ensures { (s : RowsView) → IsKnowledge s result }
    {
        Knowledge {
            items: Vec::new(alloc),
            documents: KnownDocuments::none(),
            steps: StepSearches::none(),
            above: None,
            part: 0,
            parent: None,
        }
    }
}

/// Searches as far as they went in each text that keeps so many bytes in front.
pub(crate) fn searches_before(rows: &Rows<'_>, steps: StepSearches, front: usize) -> StepSearches
    requires rows_view { IsRowsView rows.now }
    requires steps { AreSearches rows.now.rows steps }
    ensures { (c : Cut) → rows.now ≡ rows_view c → SearchesStay front c result }
{
    StepSearches {
        sequences: searched_before(rows, steps.sequences, front),
        mappings: searched_before(rows, steps.mappings, front),
    }
}
