//! What rows spell that their text doesn't lend, and the heads that it lends in flow style.

use yq_core::BorrowedNode;
use yq_outline::Head;

/// How many collections are nested at most in a flow collection that the text lends.
pub const BORROWED_DEPTH: usize = 16;

/// What a row's head spells, where it is made, an alias or a flow collection.
#[derive(Clone, Copy)]
pub enum DecodedHead<'d, 't> {
    /// A scalar or a flow collection, made.
    Owned(&'d Head<'t>),
    /// A flow collection of which the text lends each key and scalar.
    Borrowed(BorrowedNode<'t>),
    /// An alias, by its name and the byte where it begins.
    Alias(&'t str, usize),
}

/// What a row spells that its text doesn't lend: a key with escapes, a scalar with escapes or of several
/// lines, or a flow collection with escapes, an anchor or an alias.
#[derive(Drop)]
pub struct Decoded<'t> {
    /// How many rows of the text come before the row.
    pub row: usize,
    pub key: Option<String>,
    pub head: Option<Head<'t>>,
}
