//! Where steps lead from a node.
ghost use Rattle.std.specs.Prelude.{◌≡◌, map, option_map};
ghost use Rattle.yq_core.{specs.Entries.tree_step, specs.Paths.{To, Nth, child_at, node_at}, specs.Tree.children_of};
ghost use Rattle.yq_nodes.{specs.Children.rest_of, specs.Nodes.{labelled_of, node_of}, specs.Bodies.body_outline};
ghost use Rattle.yq_outline.{specs.Labelled.{labelled_at, labelled_from}, specs.Outline.children};

use crate::nodes::children::Rest;
use crate::nodes::flow::{entry_at, item_at};
use crate::nodes::node::Node;
use crate::nodes::under::Under;
use yq_core::Step;
use yq_row_walk::{Walk, find_item, find_key};

/// The entry of a key among those of lines.
fn line_entry<'d, 't>(under: Under<'d, 't>, key: &str) -> Option<Node<'d, 't>>
    ensures { option_map labelled_of result ≡
        labelled_at (To key.now) (children (body_outline under.entry)) }
{
    let (rows, document) = under.text.document_rows(under.document);
    let walk = Walk {
        rows,
        document,
        known: &[],
        line: None,
        above: None,
    };
    let at = find_key(&walk, under.first, under.floor, key)?;
    Some(Node::of_line(under.text, under.document, at))
}

/// The item of an index among those of lines.
fn line_item<'d, 't>(under: Under<'d, 't>, index: usize) -> Option<Node<'d, 't>>
    ensures { option_map labelled_of result ≡
        labelled_at (Nth index) (children (body_outline under.entry)) }
{
    let (rows, document) = under.text.document_rows(under.document);
    let walk = Walk {
        rows,
        document,
        known: &[],
        line: None,
        above: None,
    };
    let at = find_item(&walk, under.first, under.floor, index)?;
    Some(Node::of_line(under.text, under.document, at))
}

/// The entry of a key among items or entries.
#[tactic(auto, using(yq_documents::proofs::FlowLaws::no_key))]
fn rest_entry<'d, 't>(rest: Rest<'d, 't>, key: &str) -> Option<Node<'d, 't>>
    ensures { option_map labelled_of result ≡ labelled_at (To key.now) (rest_of rest.entry) }
{
    match rest {
        Rest::Nothing => None,
        Rest::Lines(under) => line_entry(under, key),
        Rest::Items(_) => None,
        Rest::Entries(entries) => {
            let (key, node) = entry_at(entries, key)?;
            Some(Node::of_inline(Some(key), node))
        }
        Rest::Borrowed(parts) => Some(Node::of_borrowed(parts.entry(key)?)),
    }
}

/// The item of an index among items or entries.
#[tactic(auto, using(yq_documents::proofs::FlowLaws::no_index))]
fn rest_item<'d, 't>(rest: Rest<'d, 't>, index: usize) -> Option<Node<'d, 't>>
    ensures { option_map labelled_of result ≡ labelled_at (Nth index) (rest_of rest.entry) }
{
    match rest {
        Rest::Nothing => None,
        Rest::Lines(under) => line_item(under, index),
        Rest::Items(items) => {
            let node = item_at(items, index)?;
            Some(Node::of_inline(None, node))
        }
        Rest::Entries(_) => None,
        Rest::Borrowed(parts) => Some(Node::of_borrowed(parts.item(index)?)),
    }
}

impl<'d, 't> Node<'d, 't> {
    /// The value of the entry of a key.
    pub fn entry(&self, key: &str) -> Option<Node<'d, 't>>
        ensures node { option_map node_of result ≡
            child_at (To key.now) (children_of (node_of self.now)) }
        ensures labelled { option_map labelled_of result ≡
            labelled_at (To key.now) (children_of (node_of self.now)) }
    {
        rest_entry(self.rest(), key)
    }

    /// The item of an index, counted from 0.
    pub fn item(&self, index: usize) -> Option<Node<'d, 't>>
        ensures node { option_map node_of result ≡
            child_at (Nth index) (children_of (node_of self.now)) }
        ensures labelled { option_map labelled_of result ≡
            labelled_at (Nth index) (children_of (node_of self.now)) }
    {
        rest_item(self.rest(), index)
    }

    /// The node to which a step leads.
    pub fn child(&self, step: &Step) -> Option<Node<'d, 't>>
        ensures node { option_map node_of result ≡
            child_at (tree_step step.now) (children_of (node_of self.now)) }
        ensures labelled { option_map labelled_of result ≡
            labelled_at (tree_step step.now) (children_of (node_of self.now)) }
    {
        match step {
            Step::Key(key) => self.entry(key.as_str()),
            Step::Index(index) => self.item(*index),
        }
    }

    /// The node to which steps lead.
    pub fn descend(&self, steps: &[Step]) -> Option<Node<'d, 't>>
        ensures node { option_map node_of result ≡
            node_at (map tree_step steps.now) (node_of self.now) }
        ensures labelled { option_map labelled_of result ≡
            labelled_from (map tree_step steps.now) (labelled_of self.now) }
    {
        let mut node = *self;
        'steps: for step in steps {
            node = node.child(step)?;
        }
        Some(node)
    }
}
