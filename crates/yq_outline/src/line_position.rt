//! Where lines of a document are among its rows.

/// The rows of a document: those of a text from one up to another one.
#[derive(Clone, Copy)]
pub struct Stretch {
    pub first: usize,
    pub end: usize,
}

/// A line of a document by its row, of those of the text, and by how many lines of that row are
/// before it; or the end after the document's rows.
#[derive(Clone, Copy)]
pub struct Position {
    pub row: usize,
    pub line: usize,
}

/// An item of a collection of rows, from which a walk over the items after it may go on: how many
/// of them come before its row.
#[derive(Clone, Copy)]
pub struct KnownItem {
    /// The line of the collection's first item.
    pub under: Position,
    /// How deep the collection is; its items are deeper.
    pub floor: usize,
    /// How deep its items are.
    pub level: usize,
    /// How many of its items begin before the row.
    pub index: usize,
    /// How many rows of the text come before the item's.
    pub row: usize,
}

/// Where a step leads.
#[derive(Clone, Copy)]
pub enum Next {
    /// To a line.
    Line(Position),
    /// On in the head of a line.
    Head(Position),
}
