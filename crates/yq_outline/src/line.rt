//! What is in the lines of a document: the texts of keys and scalars, and heads.
ghost use Rattle.std.specs.Prelude.{◌≡◌};
ghost use Rattle.yq_outline.specs.View.{content_view};

use yq_core::{Inline, Kind};

/// A text that a key or scalar means.
#[derive(Drop)]
pub enum ScalarContent<'t> {
    /// As it is written.
    Slice(&'t str),
    /// Made of what is written: lines folded, escapes replaced.
    Own(String),
}

impl ScalarContent<'_> {
    /// The text.
    pub fn text(&self) -> &str
        ensures { result.now ≡ content_view self.now }
    {
        match self {
            ScalarContent::Slice(text) => text,
            ScalarContent::Own(text) => text.as_str(),
        }
    }
}

/// What comes after a line's mark and its anchor.
#[derive(Drop)]
pub enum Head<'t> {
    /// Nothing: the node is that of the lines under this one, or null.
    Nothing,
    /// A scalar.
    Scalar(Kind, ScalarContent<'t>),
    /// An alias or a flow collection. Few lines have one, so it is apart from them.
    Inline(Box<Inline<'t>>),
}
