//! Copies of nodes, as values.
ghost use Rattle.std.specs.Prelude.{◌≡◌, IfOk, string_bytes};
ghost use Rattle.yq_core.{specs.Values.value_node, specs.Scalar.IsScalar, specs.Tree.children_of};
ghost use Rattle.yq_nodes.specs.Nodes.{label_of, node_of};
ghost use Rattle.yq_semantics.{specs.Judgement.Judges, specs.Conditions.value_of};
ghost use Rattle.yq_eval.{specs.PlaceView.place_of, specs.TreeScalars.{EachHasScalars, HasScalars}};
ghost use Rattle.yq_eval.specs.MatchAnswers.{JudgesValues, JudgesFields};
ghost use Rattle.yq_semantics.specs.Copies as spec;

use crate::matching::place::FoundPlace;
use crate::matching::steps::at_place;
use std::alloc::{AllocError, Global};
use yq_core::{Kind, Scalar, Value};
use yq_nodes::{Node, NodeKind};
use yq_semantics::{ExprError, Refusal};

/// The scalar of that kind and text.
fn scalar_of(alloc: Global, kind: Kind, text: &str) -> Result<Scalar, AllocError>
    requires { IsScalar kind text.now }
    ensures kind { IfOk result (λ s. s.kind ≡ kind) }
    ensures text { IfOk result (λ s. s.text ≡ text.now) }
{
    match kind {
        Kind::Null => Scalar::null(alloc),
        Kind::Text => Ok(Scalar::string(String::from_str(alloc, text)?)),
        Kind::Bool | Kind::Int | Kind::Float => Scalar::plain(alloc, text),
    }
}

/// The key of an entry.
fn key_of(alloc: Global, entry: &Node<'_, '_>) -> Result<String, AllocError>
    ensures { IfOk result (λ s. string_bytes s ≡ spec.key_or_empty (label_of entry.now).key) }
{
    match entry.key() {
        Some(key) => String::from_str(alloc, key),
        None => Ok(String::new(alloc)),
    }
}

/// A copy of a node: it has no anchors and no comments.
#[cycle(copy)]
pub(crate) fn copy(alloc: Global, node: &Node<'_, '_>) -> Result<Value, ExprError>
    requires { HasScalars (node_of node.now) }
    ensures { Judges value_node result (spec.copy (node_of node.now)) }
{
    match node.kind() {
        NodeKind::Alias => Err(Refusal::ThroughAlias.error()),
        NodeKind::Scalar(kind) => Ok(Value::Scalar(scalar_of(alloc, kind, node.text())?)),
        NodeKind::List => Ok(Value::List(item_copies(alloc, node)?)),
        NodeKind::Map => Ok(Value::Map(entry_copies(alloc, node)?)),
    }
}

/// Copies of a node's items.
#[cycle(copy)]
fn item_copies(alloc: Global, node: &Node<'_, '_>) -> Result<Vec<Value>, ExprError>
    requires { EachHasScalars (children_of (node_of node.now)) }
    ensures { JudgesValues result (spec.item_copies (children_of (node_of node.now))) }
{
    let mut copies = Vec::new(alloc);
    let mut items = node.children();
    'each: while let Some(item) = items.next() {
        copies.push(copy(alloc, &item)?)?;
    }
    Ok(copies)
}

/// Copies of a node's entries, with their keys.
#[cycle(copy)]
fn entry_copies(alloc: Global, node: &Node<'_, '_>) -> Result<Vec<(String, Value)>, ExprError>
    requires { EachHasScalars (children_of (node_of node.now)) }
    ensures { JudgesFields result (spec.entry_copies (children_of (node_of node.now))) }
{
    let mut copies = Vec::new(alloc);
    let mut entries = node.children();
    'each: while let Some(entry) = entries.next() {
        let value = copy(alloc, &entry)?;
        copies.push((key_of(alloc, &entry)?, value))?;
    }
    Ok(copies)
}

/// A copy of the value at a place: null where a step is missing.
pub fn copy_at(alloc: Global, place: &FoundPlace<'_, '_>) -> Result<Value, ExprError>
    requires { HasScalars (value_of (place_of place.now)) }
    ensures { Judges value_node result (spec.copy_at (place_of place.now)) }
{
    match place.found() {
        Some(node) => at_place(alloc, place, copy(alloc, node)),
        None => Ok(Value::Scalar(Scalar::null(alloc)?)),
    }
}
