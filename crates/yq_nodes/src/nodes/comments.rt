//! Comments, each by its text.
ghost use Rattle.std.specs.Prelude.{◌≡◌};
ghost use Rattle.yq_nodes.specs.Nodes.{label_of};
ghost use Rattle.yq_outline.specs.Bodies.{borrowed};
ghost use Rattle.yq_documents.specs.Texts.{texts_left};

use crate::nodes::node::{Node, Slot};
use yq_documents::{Comments, comment_text};

impl<'t> Node<'_, 't> {
    /// The comments before its entry or item, line by line.
    pub fn head_comment(&self) -> Comments<'t>
        ensures { texts_left result ≡ (label_of self.now).head_comment }
    {
        match self.slot {
            Slot::Root => Comments::none(),
            Slot::Line(written) => Comments::of(written.gap),
            Slot::Inline(_) => Comments::none(),
        }
    }

    /// The comment after its entry or item, on its line.
    pub fn line_comment(&self) -> Option<&'t str>
        ensures { borrowed result ≡ (label_of self.now).line_comment }
    {
        match self.slot {
            Slot::Root => None,
            Slot::Line(written) => comment_text(written.tail),
            Slot::Inline(_) => None,
        }
    }
}
