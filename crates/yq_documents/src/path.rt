//! Paths into documents, and places of their nodes.

use yq_core::Step;

/// Where a node is: its document, counted from 0, and the steps from the root of that document.
#[derive(Debug, Drop)]
pub struct Path {
    pub doc: usize,
    pub steps: Vec<Step>,
}

/// What is asked of a node.
#[derive(Clone, Copy, Debug, PartialEq, Eq)]
pub enum Part {
    /// Its content.
    Content,
    /// Its entry or item, with the key or dash.
    Entry,
    /// The lines of comments before its entry or item.
    HeadComment,
    /// The comment after its entry or item, on its line.
    LineComment,
}

/// A place in a text, in bytes from its start.
#[derive(Clone, Copy, Debug, PartialEq, Eq)]
pub struct Span {
    pub start: usize,
    pub end: usize,
}
