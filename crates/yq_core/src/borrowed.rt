//! Nodes of flow collections that a text lends, without a tree.
ghost use Rattle.std.specs.Prelude.{◌≡◌, ◌≤◌, length, true};
ghost use Rattle.yq_core.specs.Borrowed.{is_borrowed};

/// The node in front of a text, in a flow collection. The text lends each key and scalar of it; it has no
/// anchor and no alias, and no mapping in it has a key twice.
#[derive(Clone, Copy)]
pub struct BorrowedNode<'t> {
    /// How long the whole text is, in bytes.
    pub total: usize,
    /// How many collections are nested in the node at most.
    pub depth: usize,
    /// The whole text from the node on.
    pub text: &'t str,
    pub ghost within: { length text.now ≤ total },
    pub ghost borrowed: { is_borrowed depth text.now ≡ true },
}
