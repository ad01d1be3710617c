//! What is walked: the rows of a document, with what is known of them.

use yq_core::Step;
use yq_outline::{KnownItem, Position, Stretch};
use yq_row_table::Rows;

/// The line to which all steps of a path lead in a document.
#[derive(Clone, Copy)]
pub struct KnownLine<'s> {
    pub document: Stretch,
    pub steps: &'s [Step],
    pub at: Position,
}

/// The rows of a document of a text, with items and a line from which walks go on.
#[derive(Clone, Copy)]
pub struct Walk<'a, 't> {
    pub rows: &'a Rows<'t>,
    pub document: Stretch,
    /// Items that are known, if any, one for each collection.
    pub known: &'a [KnownItem],
    /// The line of a path, if it is known.
    pub line: Option<&'a KnownLine<'a>>,
    /// A line from which steps lead on, if one is known.
    pub above: Option<KnownLine<'a>>,
}
