//! Where a step leads from a node.
ghost use Rattle.std.specs.Prelude.{◌≡◌, option_map, Some};
ghost use Rattle.yq_core.{specs.Paths.{To, Nth}, specs.Tree.children_of};
ghost use Rattle.yq_nodes.specs.Nodes.{node_of};
ghost use Rattle.yq_semantics.specs.Judgement.{Judges};
ghost use Rattle.yq_eval.specs.PlaceView.{found_of};
ghost use Rattle.yq_semantics.specs.Matching as spec;

use crate::matching::place::NodeStep;
use yq_core::Kind;
use yq_nodes::{Node, NodeKind};
use yq_semantics::{ExprError, Refusal};

/// The entry of a key, if there is one, with the step that leads to it.
fn entry<'a, 't>(node: &Node<'a, 't>, key: &'a str) -> Option<(NodeStep<'a>, Node<'a, 't>)>
    ensures { found_of result ≡ spec.step_child (To key.now) (children_of (node_of node.now)) }
{
    let value = node.entry(key)?;
    Some((NodeStep::Key(key), value))
}

/// Where a key leads from a node.
pub(crate) fn key_step<'a, 't>(
    node: &Node<'a, 't>,
    key: &'a str,
) -> Result<Option<(NodeStep<'a>, Node<'a, 't>)>, ExprError>
    ensures { Judges found_of result (spec.key_step key.now (node_of node.now)) }
{
    match node.kind() {
        NodeKind::Alias => Err(Refusal::ThroughAlias.error()),
        NodeKind::Scalar(Kind::Null) => Ok(None),
        NodeKind::Scalar(_) | NodeKind::List => Err(Refusal::NotAMap.error()),
        NodeKind::Map => Ok(entry(node, key)),
    }
}

/// The number from 0 of the item of an index.
fn item_number(node: &Node<'_, '_>, index: i64) -> Result<usize, ExprError>
    ensures { Judges (λ n. n) result (spec.item_number index (children_of (node_of node.now))) }
{
    if index >= 0 {
        return Ok(index as usize);
    }
    let all = node.count();
    let back = index.unsigned_abs() as usize;
    if all < back {
        return Err(Refusal::IndexOutOfRange.error());
    }
    Ok(all - back)
}

/// The item of an index, if there is one, with the step that leads to it.
fn item<'a, 't>(
    node: &Node<'a, 't>,
    index: i64,
) -> Result<Option<(NodeStep<'a>, Node<'a, 't>)>, ExprError>
    ensures { Judges found_of result (spec.item_at_index index (children_of (node_of node.now))) }
{
    let number = item_number(node, index)?;
    let Some(item) = node.item(number) else {
        return Ok(None);
    };
    Ok(Some((NodeStep::Index(number), item)))
}

/// Where an index leads from a node.
pub(crate) fn index_step<'a, 't>(
    node: &Node<'a, 't>,
    index: i64,
) -> Result<Option<(NodeStep<'a>, Node<'a, 't>)>, ExprError>
    ensures { Judges found_of result (spec.index_step index (node_of node.now)) }
{
    match node.kind() {
        NodeKind::Alias => Err(Refusal::ThroughAlias.error()),
        NodeKind::Scalar(Kind::Null) => Ok(None),
        NodeKind::Scalar(_) | NodeKind::Map => Err(Refusal::NotASequence.error()),
        NodeKind::List => item(node, index),
    }
}
