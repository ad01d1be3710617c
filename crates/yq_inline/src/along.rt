//! Nodes to which steps lead in the node in front of a text, read without the trees of what is around them.
ghost use Rattle.std.specs.Prelude.{◌≡◌, [], IfOk, map};
ghost use Rattle.yq_core.specs.Entries.{tree_step};
ghost use Rattle.yq_inline.specs.Along as spec;

use crate::before_offset::LeadingNode;
use crate::leading_parts::leading_parts;
use crate::passing::find_part;
use crate::reading::read_node;
use std::alloc::{AllocError, Global};
use yq_core::{Inline, ReadError, Step};

/// A node with its places in the text that begins with it.
#[derive(Drop)]
pub struct NodeAlong<'t> {
    pub node: Inline<'t>,
    pub text: &'t str,
}

/// The node of the item or entry to which a step leads.
fn part_along<'t>(node: LeadingNode<'t>, step: &Step) -> Option<LeadingNode<'t>>
    ensures { spec.read_in result ≡ spec.one_in (tree_step step.now) (spec.front_read node.entry) }
{
    let Some((_, parts)) = leading_parts(node) else {
        return None;
    };
    let Some(found) = find_part(parts, step) else {
        return None;
    };
    Some(LeadingNode {
        flow: true,
        spaces: Some(0),
        depth: found.parts.depth,
        text: found.node,
    })
}

/// The node in front, with its places.
fn read_front<'t>(alloc: Global, node: LeadingNode<'t>) -> Result<Option<NodeAlong<'t>>, AllocError>
    ensures { IfOk result (spec.ReadsAlong [] node.entry) }
{
    let text = node.text;
    match read_node(alloc, node.flow, node.spaces, text, node.depth, text) {
        Ok((node, _)) => Ok(Some(NodeAlong { node, text })),
        Err(ReadError::Memory) => Err(AllocError),
        // A node is in front.
        Err(ReadError::Fault(_)) => unreachable!(),
    }
}

/// The node in front to which steps lead, if there is one.
pub(crate) fn front_along<'t>(node: LeadingNode<'t>, steps: &[Step]) -> Option<LeadingNode<'t>>
    ensures { spec.LeadsAlong (map tree_step steps.now) node.entry result }
{
    let mut found = node;
    'steps: for step in steps {
        let Some(part) = part_along(found, step) else {
            return None;
        };
        found = part;
    }
    Some(found)
}

/// The node to which steps lead, with its places, if there is one.
pub fn read_along<'t>(
    alloc: Global,
    node: LeadingNode<'t>,
    steps: &[Step],
) -> Result<Option<NodeAlong<'t>>, AllocError>
    ensures { IfOk result (spec.ReadsAlong (map tree_step steps.now) node.entry) }
{
    let Some(found) = front_along(node, steps) else {
        return Ok(None);
    };
    read_front(alloc, found)
}

/// The node of the item or entry to which a step leads in the one to which steps lead, with its places, if there is one.
pub fn read_part<'t>(
    alloc: Global,
    node: LeadingNode<'t>,
    steps: &[Step],
    last: &Step,
) -> Result<Option<NodeAlong<'t>>, AllocError>
    ensures { IfOk result (spec.ReadsPart (map tree_step steps.now) (tree_step last.now) node.entry) }
{
    let Some(found) = front_along(node, steps) else {
        return Ok(None);
    };
    let Some(part) = part_along(found, last) else {
        return Ok(None);
    };
    read_front(alloc, part)
}
