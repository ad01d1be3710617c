//! Where items and entries are that a text lends, and where paths lead in its nodes.
ghost use Rattle.std.specs.Prelude.{◌≡◌, option_map};
ghost use Rattle.yq_core.{specs.Entries.entry_place, specs.View.borrowed_view};
ghost use Rattle.yq_inline.{specs.BorrowedForms.{borrowed_entry_at, borrowed_part_at}, specs.BorrowedParts.borrowed_entry};
ghost use Rattle.yq_core.specs.Entries as spec;

use crate::forms::{BorrowedForm, form_of};
use crate::parts::{BorrowedEntry, past_borrowed};
use crate::pieces::begins_content;
use yq_core::{BorrowedNode, Step};

/// The item or entry to which a step leads.
fn part_of<'t>(node: BorrowedNode<'t>, step: &Step) -> Option<BorrowedEntry<'t>>
    ensures { option_map borrowed_entry result ≡ borrowed_part_at step.now node.entry }
{
    let parts = match form_of(node) {
        BorrowedForm::Scalar(..) => return None,
        BorrowedForm::List(items) => items,
        BorrowedForm::Map(entries) => entries,
    };
    match step {
        Step::Key(key) => parts.entry(key.as_str()),
        Step::Index(index) => parts.item(*index),
    }
}

/// The item or entry at a path from a node, which itself is the entry of the empty path.
pub fn entry_in<'t>(node: BorrowedNode<'t>, steps: &[Step]) -> Option<BorrowedEntry<'t>>
    ensures { option_map borrowed_entry result ≡ borrowed_entry_at steps.now node.entry }
{
    let mut found = BorrowedEntry { key: None, node };
    'steps: for step in steps {
        found = part_of(found.node, step)?;
    }
    Some(found)
}

/// Where a node ends, in bytes.
fn end_of(node: BorrowedNode<'_>) -> usize
    ensures { result ≡ spec.end_of (borrowed_view node.entry) }
{
    node.total - past_borrowed(node).len()
}

impl BorrowedEntry<'_> {
    /// Where the item or entry begins and ends, in bytes: with its key.
    pub fn place(&self) -> (usize, usize)
        ensures { result ≡ entry_place (borrowed_entry self.now) }
    {
        let end = end_of(self.node);
        match self.key {
            Some((_, piece)) => (piece.start, end),
            None => (self.node.total - self.node.text.len(), end),
        }
    }

    /// Where the node's content begins and ends, in bytes. Nothing where nothing is written.
    pub fn content_place(&self) -> Option<(usize, usize)>
        ensures { result ≡ spec.content_place (borrowed_view self.now.node) }
    {
        let node = self.node;
        if !begins_content(true, node.text.as_bytes()) {
            return None;
        }
        Some((node.total - node.text.len(), end_of(node)))
    }
}
