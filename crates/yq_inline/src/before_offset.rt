//! Nodes, and items and entries of collections, in front of a text.
ghost use Rattle.std.specs.Prelude.{◌≢◌, None};
ghost use Rattle.yq_core.specs.Reading.{all_items, all_node};
ghost use Rattle.yq_inline.specs.Measured.{closing_byte};

/// The node in front of a text.
#[derive(Clone, Copy)]
pub struct LeadingNode<'t> {
    /// Whether it is in a flow collection.
    pub flow: bool,
    /// How many spaces a further line of it begins with at least; without a number it has one line.
    pub spaces: Option<usize>,
    /// How many collections are nested in it at most.
    pub depth: usize,
    /// The text from the node on.
    pub text: &'t str,
    pub ghost node: { all_node flow spaces depth text.now ≢ None },
}

/// Items of a sequence, or entries of a mapping, in front of a text, with the `]` or `}` after them.
#[derive(Clone, Copy)]
pub(crate) struct LeadingParts<'t> {
    /// How many collections are nested in each at most.
    pub(crate) depth: usize,
    /// Whether they are entries.
    pub(crate) keyed: bool,
    /// The text from the first of them on.
    pub(crate) text: &'t str,
    pub ghost parts: { all_items depth (closing_byte keyed) text.now ≢ None },
}
