//! What nodes are, where they are on lines or in heads.

use crate::nodes::under::Under;
use yq_core::{BorrowedNode, Inline, Kind};

/// What a node is, but for the anchor before it.
#[derive(Clone, Copy)]
pub(crate) enum Body<'d, 't> {
    /// A null of which nothing is written.
    Null,
    /// A scalar after a mark.
    Scalar(Kind, &'d str),
    /// The entries of these lines.
    Map(Under<'d, 't>),
    /// The items of these lines.
    List(Under<'d, 't>),
    /// A flow collection after a mark, or what is in one.
    Inline(&'d Inline<'t>),
    /// A flow collection after a mark, or what is in one, of which the text lends each key and scalar.
    Borrowed(BorrowedNode<'t>),
    /// An alias after a mark, by its name.
    Alias(&'t str),
}

/// A node, with the anchor before it.
#[derive(Clone, Copy)]
pub(crate) struct Named<'d, 't> {
    pub(crate) anchor: Option<&'t str>,
    pub(crate) body: Body<'d, 't>,
}
