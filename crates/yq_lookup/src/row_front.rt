//! The nodes in the heads of rows, in front of a text.
ghost use Rattle.std.specs.Prelude.{◌≡◌, ◌<◌, ◌||◌, length};
ghost use Rattle.yq_core.specs.Nodes.{begins_with};
ghost use Rattle.yq_row_table.specs.View.{rows_of};
ghost use Rattle.yq_documents.specs.Reading.{cut_of};
ghost use Rattle.yq_lookup.specs.RowFronts as spec;

use crate::cut_text::CutText;
use yq_core::{DEPTH_LIMIT, Place, further_spaces};
use yq_inline::LeadingNode;
use yq_places::is_text;
use yq_row_walk::head_place;

/// Whether a flow collection begins so.
fn opens_collection(head: &[u8]) -> bool
    ensures { result ≡ (begins_with 91 head.now || begins_with 123 head.now) }
{
    matches!(head, [b'[' | b'{', ..])
}

impl<'t> CutText<'_, 't> {
    /// The node in the head of row `i`, after its anchor, and how many bytes come before it, if a bracket is there.
    pub(crate) fn row_front(&self, i: usize) -> Option<(LeadingNode<'t>, usize)>
        requires { i < length (rows_of (cut_of self.now)) }
        ensures { spec.FindsFront self.now i result }
    {
        is_text(self.text);
        let row = self.rows.row(i);
        let (start, _) = head_place(self.rows, i);
        let text = self.rows.from_head(i);
        if !opens_collection(row.head().as_bytes()) {
            return None;
        }
        let front = LeadingNode {
            flow: false,
            spaces: further_spaces(Place::Block, row.parent_indent()),
            depth: DEPTH_LIMIT,
            text,
        };
        Some((front, start))
    }
}
