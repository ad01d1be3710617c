//! What the nodes at paths are, each read from its rows.
ghost use Rattle.std.specs.Prelude.{◌≡◌, map, option_map, false, IfOk, None};
ghost use Rattle.yq_core.{specs.Entries.tree_step, specs.Paths.node_at, specs.Trees.placed_tree};
ghost use Rattle.yq_outline.{specs.Ends.part, specs.Outline.value, specs.Positions.begins_with_node, specs.View.head_view};
ghost use Rattle.yq_row_walk.specs.Walk.{IsWalk, IsWalkPosition, OfWalkLines};
ghost use Rattle.yq_core.specs.View as inline;
ghost use Rattle.yq_places.specs.NodeReading as reading;
ghost use Rattle.yq_places.specs.NodesAt as spec;

use crate::places::node_place::NodePlace;
use std::alloc::{AllocError, Global};
use yq_core::{Form, Inline, Kind, Step};
use yq_outline::{Head, Position, ScalarContent};
use yq_row_walk::{Walk, is_deeper, is_item_at, position_after};

/// What a node is, as far as updates ask.
#[derive(Drop)]
pub enum NodeAt<'t> {
    Alias,
    Scalar(Kind, ScalarContent<'t>),
    /// A sequence, and whether it has several items.
    List(bool),
    /// A mapping, and whether it has several entries.
    Map(bool),
}

impl<'t> NodeAt<'t> {
    /// The scalar that it is, if it is one.
    pub fn scalar(self) -> Option<(Kind, ScalarContent<'t>)>
        ensures { option_map spec.scalar_view result ≡
            spec.summary_scalar (spec.node_view self.entry) }
    {
        match self {
            NodeAt::Scalar(kind, text) => Some((kind, text)),
            NodeAt::Alias | NodeAt::List(_) | NodeAt::Map(_) => None,
        }
    }

    /// Whether it has several items or entries.
    pub fn has_several(&self) -> bool
        ensures { result ≡ spec.summary_several (spec.node_view self.now) }
    {
        match self {
            NodeAt::Alias | NodeAt::Scalar(..) => false,
            NodeAt::List(several) | NodeAt::Map(several) => *several,
        }
    }
}

/// What the node is to which steps lead in an inline node, if there is one.
fn inline_node<'t>(
    alloc: Global,
    node: &Inline<'t>,
    steps: &[Step],
) -> Result<Option<NodeAt<'t>>, AllocError>
    ensures { IfOk result (λ o. option_map spec.node_view o ≡ option_map spec.node_summary
        (node_at (map tree_step steps.now) (placed_tree (inline.inline_view node.now)))) }
{
    let Some(entry) = node.entry(steps) else {
        return Ok(None);
    };
    match &entry.node.form {
        Form::Empty => Ok(Some(NodeAt::Scalar(Kind::Null, ScalarContent::Slice("null")))),
        Form::Alias(_) => Ok(Some(NodeAt::Alias)),
        Form::Scalar(scalar, _) => {
            let text = String::from_str(alloc, scalar.text())?;
            Ok(Some(NodeAt::Scalar(scalar.kind(), ScalarContent::Own(text))))
        }
        Form::List(items) => Ok(Some(NodeAt::List(items.len() > 1))),
        Form::Map(entries) => Ok(Some(NodeAt::Map(entries.len() > 1))),
    }
}

/// What the node is to which steps lead in a head, if there is one.
pub fn head_node<'t>(
    alloc: Global,
    head: Head<'t>,
    steps: &[Step],
) -> Result<Option<NodeAt<'t>>, AllocError>
    ensures { IfOk result (λ o. option_map spec.node_view o ≡
        reading.summary_in_head (map tree_step steps.now) (head_view head.entry)) }
{
    match head {
        Head::Nothing => Ok(None),
        Head::Scalar(kind, text) => {
            if !steps.is_empty() {
                return Ok(None);
            }
            Ok(Some(NodeAt::Scalar(kind, text)))
        }
        Head::Inline(node) => inline_node(alloc, &node, steps),
    }
}

/// What the node is that the lines mean, from one on, that are deeper than a level, where the
/// first of them is no node itself.
fn lines_node<'t>(walk: &Walk<'_, '_>, under: Position, floor: usize) -> NodeAt<'t>
    requires walk { IsWalk walk.now }
    requires under { IsWalkPosition walk.now under }
    ensures { OfWalkLines walk.now (λ ls n.
        begins_with_node (part ls (n under) floor) ≡ false →
        spec.node_view result ≡ spec.node_summary (value (part ls (n under) floor))) }
{
    if !is_deeper(walk.rows, walk.document, under, floor) {
        return NodeAt::Scalar(Kind::Null, ScalarContent::Slice("null"));
    }
    let others = position_after(walk.rows, walk.document, under);
    let several = is_deeper(walk.rows, walk.document, others, floor);
    if is_item_at(walk.rows, walk.document, under, 0) {
        NodeAt::List(several)
    } else {
        NodeAt::Map(several)
    }
}

/// What the node is that is written in the head of no line.
pub fn block_node<'t>(walk: &Walk<'_, '_>, place: NodePlace) -> Option<NodeAt<'t>>
    requires walk { IsWalk walk.now }
    requires place { reading.IsPlace walk.now.rows.now walk.now.document place }
    ensures { OfWalkLines walk.now (λ ls n.
        reading.place_line ls (reading.place_by n place) ≡ None →
        option_map spec.node_view result ≡
        reading.summary_of_lines ls (reading.place_by n place)) }
{
    match place {
        NodePlace::Head(_) => None,
        NodePlace::Lines(under, floor) => Some(lines_node(walk, under, floor)),
    }
}
