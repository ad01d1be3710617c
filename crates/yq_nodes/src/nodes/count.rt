//! How many items or entries a node has.
ghost use Rattle.std.specs.Prelude.{◌≡◌};
ghost use Rattle.yq_core.{specs.Tree.children_of, specs.Trees.parts_tree};
ghost use Rattle.yq_inline.specs.BorrowedParts.{parts_view};
ghost use Rattle.yq_nodes.{specs.Children.{lines_rest, rest_of}, specs.Nodes.node_of};
ghost use Rattle.yq_outline.specs.Counts as spec;

use crate::nodes::children::{Rest, after_first};
use crate::nodes::node::Node;
use crate::nodes::under::Under;
use yq_inline::BorrowedParts;

/// How many items or entries these lines begin.
fn count_lines(under: Under<'_, '_>) -> usize
    ensures { result ≡ spec.count (rest_of (lines_rest under.entry)) }
{
    let mut rest = under;
    let mut count = 0;
    'lines: while let Some(after) = after_first(rest) {
        rest = after;
        count += 1;
    }
    count
}

/// How many items or entries these are.
fn count_parts(parts: BorrowedParts<'_>) -> usize
    ensures { result ≡ spec.count (parts_tree (parts_view parts.entry)) }
{
    let mut rest = parts;
    let mut n = 0;
    'parts: while let Some((_, others)) = rest.split_first() {
        rest = others;
        n += 1;
    }
    n
}

impl Node<'_, '_> {
    /// How many items or entries it has.
    #[tactic(auto, using(yq_documents::proofs::CountedLaws::items_count, yq_documents::proofs::CountedLaws::entries_count))]
    pub fn count(&self) -> usize
        ensures { result ≡ spec.count (children_of (node_of self.now)) }
    {
        match self.rest() {
            Rest::Nothing => 0,
            Rest::Lines(under) => count_lines(under),
            Rest::Items(items) => items.len(),
            Rest::Entries(entries) => entries.len(),
            Rest::Borrowed(parts) => count_parts(parts),
        }
    }
}
