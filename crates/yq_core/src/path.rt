//! Paths inside inline nodes, and the places to which they lead.
ghost use Rattle.std.specs.Prelude.{◌≡◌, IfOk, None, map, option_map};
ghost use Rattle.yq_core.{specs.Trees.placed_tree, specs.View.{entries_end, items_end, inline_view}};
ghost use Rattle.yq_core.specs.Paths as paths;
ghost use Rattle.yq_core.specs.Entries as spec;

use crate::Piece;
use crate::inline::{Form, Inline};
use std::alloc::{AllocError, Global};

/// A step of a path.
#[derive(Debug, Drop)]
pub enum Step {
    /// To the value of the entry with this key.
    Key(String),
    /// To an item, counted from 0.
    Index(usize),
}

/// The same step again.
fn copied_step(alloc: Global, step: &Step) -> Result<Step, AllocError>
    ensures { IfOk result (λ s. spec.tree_step s ≡ spec.tree_step step.now) }
{
    match step {
        Step::Key(key) => Ok(Step::Key(String::from_str(alloc, key.as_str())?)),
        Step::Index(index) => Ok(Step::Index(*index)),
    }
}

/// The same steps again.
pub fn copied_steps(alloc: Global, steps: &[Step]) -> Result<Vec<Step>, AllocError>
    ensures { IfOk result (λ v. map spec.tree_step v.items ≡ map spec.tree_step steps.now) }
{
    let mut copies = Vec::with_capacity(alloc, steps.len())?;
    'each: for step in steps {
        copies.push(copied_step(alloc, step)?)?;
    }
    Ok(copies)
}

/// An item or entry of a collection, or the node at which a path begins.
#[derive(Clone, Copy)]
pub struct Entry<'n, 't> {
    /// The key's content and piece; an item has no key.
    pub key: Option<(&'n str, Piece)>,
    /// The node.
    pub node: &'n Inline<'t>,
}

/// The item of that index.
fn item_at<'n, 't>(items: &'n Vec<Inline<'t>>, index: usize) -> Option<Entry<'n, 't>>
    ensures { option_map spec.entry_view result ≡
        spec.flow_part_at (paths.Nth index) (items_end items.now.items) }
{
    match items.get(index) {
        Some(node) => Some(Entry { key: None, node }),
        None => None,
    }
}

/// The entry of that key.
fn entry_at<'n, 't>(
    entries: &'n Vec<(String, Piece, Inline<'t>)>,
    key: &str,
) -> Option<Entry<'n, 't>>
    ensures { option_map spec.entry_view result ≡
        spec.flow_part_at (paths.To key.now) (entries_end entries.now.items) }
{
    'each: for entry in entries {
        if entry.0.as_str() == key {
            return Some(Entry {
                key: Some((entry.0.as_str(), entry.1)),
                node: &entry.2,
            });
        }
    }
    None
}

/// The item to which the step leads.
fn item_of<'n, 't>(items: &'n Vec<Inline<'t>>, step: &Step) -> Option<Entry<'n, 't>>
    ensures { option_map spec.entry_view result ≡
        spec.flow_part_at (spec.tree_step step.now) (items_end items.now.items) }
{
    match step {
        Step::Key(_) => None,
        Step::Index(index) => item_at(items, *index),
    }
}

/// The entry to which the step leads.
fn entry_of<'n, 't>(
    entries: &'n Vec<(String, Piece, Inline<'t>)>,
    step: &Step,
) -> Option<Entry<'n, 't>>
    ensures { option_map spec.entry_view result ≡
        spec.flow_part_at (spec.tree_step step.now) (entries_end entries.now.items) }
{
    match step {
        Step::Key(key) => entry_at(entries, key.as_str()),
        Step::Index(_) => None,
    }
}

impl<'t> Inline<'t> {
    /// The item or entry to which a step leads.
    pub fn part(&self, step: &Step) -> Option<Entry<'_, 't>>
        ensures { option_map spec.entry_view result ≡
            spec.flow_part_at (spec.tree_step step.now) (spec.parts_of (inline_view self.now)) }
    {
        match &self.form {
            Form::List(items) => item_of(items, step),
            Form::Map(entries) => entry_of(entries, step),
            Form::Empty | Form::Alias(_) | Form::Scalar(..) => None,
        }
    }

    /// The item or entry at a path from this node, which itself is the entry of the empty path.
    fn find(&self, steps: &[Step]) -> Option<Entry<'_, 't>>
        ensures { option_map spec.entry_view result ≡
            spec.placed_entry_at (map spec.tree_step steps.now) (None, inline_view self.now) }
    {
        let mut found = Entry {
            key: None,
            node: self,
        };
        'steps: for step in steps {
            found = found.node.part(step)?;
        }
        Some(found)
    }

    /// The item or entry at a path from this node, which itself is the entry of the empty path.
    #[tactic(auto, using(crate::proofs::PathLoops::by_tree))]
    pub fn entry(&self, steps: &[Step]) -> Option<Entry<'_, 't>>
        // It is the one to which the steps lead, with its places.
        ensures exact { option_map spec.entry_view result ≡
            spec.placed_entry_at (map spec.tree_step steps.now) (None, inline_view self.now) }
        // There is one exactly where the path exists in the node's tree, and its node is the one there.
        ensures node { option_map (λ e. placed_tree (inline_view e.node.now)) result ≡
            paths.node_at (map spec.tree_step steps.now) (placed_tree (inline_view self.now)) }
    {
        self.find(steps)
    }

    /// Where the node's content begins and ends, in bytes: the node without its anchor. Nothing where
    /// nothing but perhaps an anchor is written.
    pub fn content_place(&self) -> Option<(usize, usize)>
        ensures { result ≡ spec.content_place (inline_view self.now) }
    {
        match self.form {
            Form::Empty => None,
            _ => Some((self.content, self.end)),
        }
    }
}

impl<'n, 't> Entry<'n, 't> {
    /// Where the item or entry begins and ends, in bytes: with its key and its anchor.
    pub fn place(&self) -> (usize, usize)
        ensures { result ≡ spec.entry_place (spec.entry_view self.now) }
    {
        match self.key {
            Some((_, piece)) => (piece.start, self.node.end),
            None => (self.node.start, self.node.end),
        }
    }
}

/// How many collections may be nested.
pub const DEPTH_LIMIT: usize = 64;

/// How many characters a key may have, and how many its `:` may come after its first one.
pub const KEY_LIMIT: usize = 1024;
