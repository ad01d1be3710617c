//! Inline nodes, as they are read.

use crate::{Piece, Scalar};

/// An inline node of a text, by offsets in bytes.
#[derive(Drop)]
#[cycle(inline)]
pub struct Inline<'t> {
    /// The name after `&`.
    pub anchor: Option<&'t str>,
    /// Where the node begins, with its anchor.
    pub start: usize,
    /// Where what comes after the anchor begins.
    pub content: usize,
    /// Where the node ends.
    pub end: usize,
    pub form: Form<'t>,
}

/// What an inline node is.
#[derive(Drop)]
#[cycle(inline)]
pub enum Form<'t> {
    /// Nothing, which is null.
    Empty,
    /// An alias, by its name.
    Alias(&'t str),
    Scalar(Scalar, Piece),
    List(Vec<Inline<'t>>),
    /// The entries in order, each with its key's content and piece.
    Map(Vec<(String, Piece, Inline<'t>)>),
}
