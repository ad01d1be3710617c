//! The value at which an expression is refused on documents.

use std::alloc::{AllocError, Global};
use yq_core::{DEPTH_LIMIT, Step};
use yq_documents::{Documents, Path};
use yq_eval::{owned, step_to};
use yq_nodes::{Node, NodeKind};
use yq_semantics::{Refusal, Refused};
use yq_tree::locate;

/// The steps from a node to the first alias in it, in the text's order, where it isn't nested deeper than that.
#[cycle(aliases)]
fn first_alias<'d, 't>(
    alloc: Global,
    node: &Node<'d, 't>,
    depth: usize,
) -> Result<Option<Vec<Step>>, AllocError> {
    match node.kind() {
        NodeKind::Alias => return Ok(Some(Vec::new(alloc))),
        NodeKind::Scalar(_) => return Ok(None),
        NodeKind::List | NodeKind::Map => {}
    }
    if depth == 0 {
        return Ok(None);
    }
    let mut before = 0usize;
    'children: for child in node.children() {
        if let Some(mut steps) = first_alias(alloc, &child, depth - 1)? {
            steps.insert(0, owned(alloc, step_to(&child, before))?)?;
            return Ok(Some(steps));
        }
        before = before.saturating_add(1);
    }
    Ok(None)
}

/// The path to the first alias in the value at a path: a copy of that value is refused there.
fn to_alias(alloc: Global, documents: &Documents<'_>, path: Path) -> Result<Path, AllocError> {
    let Some(node) = locate(documents, &path) else {
        return Ok(path);
    };
    let Some(mut steps) = first_alias(alloc, &node, DEPTH_LIMIT)? else {
        return Ok(path);
    };
    let mut path = path;
    path.steps.append(&mut steps)?;
    Ok(path)
}

/// The path to the value at which a refusal on documents is, if it is at one that may be named.
pub fn named_place(
    alloc: Global,
    documents: &Documents<'_>,
    refused: Refused,
) -> Result<Option<Path>, AllocError> {
    match (refused.why(), refused.into_place()) {
        (Refusal::TooLarge, _) | (_, None) => Ok(None),
        (Refusal::ThroughAlias, Some(path)) => Ok(Some(to_alias(alloc, documents, path)?)),
        (_, place) => Ok(place),
    }
}
