//! Anchors that aliases of a document name.
ghost use Rattle.std.specs.Prelude.{◌≡◌, IfOk};
ghost use Rattle.yq_core.{specs.Tree.children_of, specs.Anchors.{names_in, names_of}};
ghost use Rattle.yq_nodes.specs.Nodes.{node_of};
ghost use Rattle.yq_planner.specs.Indexes.{HasAliases};
ghost use Rattle.yq_planner.specs.ChangeAnswers.{OfAliases, AddsAliases, is_used_node, holds_used_anchor, holds_used_below};

use std::alloc::{AllocError, Global};
use std::collections::BTreeMap;
use yq_nodes::{Node, NodeKind};

/// The names of aliases.
pub type Aliases<'d> = BTreeMap<&'d str, ()>;

/// Puts the names of the aliases in a node among others.
#[cycle(aliases)]
fn put_aliases<'d>(node: &Node<'d, '_>, aliases: &mut Aliases<'d>) -> Result<(), AllocError>
    ensures { AddsAliases result aliases.old aliases.new (names_of (node_of node.now)) }
{
    match node.kind() {
        NodeKind::Alias => {
            aliases.insert(node.text(), ())?;
            Ok(())
        }
        NodeKind::Scalar(_) => Ok(()),
        NodeKind::List | NodeKind::Map => put_aliases_below(node, aliases),
    }
}

/// Puts the names of the aliases in a node's items or values among others.
#[cycle(aliases)]
fn put_aliases_below<'d>(node: &Node<'d, '_>, aliases: &mut Aliases<'d>) -> Result<(), AllocError>
    ensures { AddsAliases result aliases.old aliases.new (names_in (children_of (node_of node.now))) }
{
    let mut children = node.children();
    'each: while let Some(child) = children.next() {
        put_aliases(&child, aliases)?;
    }
    Ok(())
}

/// The names of the aliases in a node. Few documents have any, so it is asked first whether this one may.
pub fn aliases_of<'d>(alloc: Global, node: &Node<'d, '_>) -> Result<Aliases<'d>, AllocError>
    ensures { IfOk result (λ m. HasAliases (names_of (node_of node.now)) m) }
{
    let mut aliases = BTreeMap::new(alloc);
    if !node.may_refer() {
        return Ok(aliases);
    }
    put_aliases(node, &mut aliases)?;
    Ok(aliases)
}

/// Whether a node's own anchor is named by an alias.
fn is_named(aliases: &Aliases<'_>, node: &Node<'_, '_>) -> bool
    ensures { OfAliases aliases.now (λ names. result ≡ is_used_node names node.now) }
{
    match node.anchor() {
        Some(name) => aliases.contains_key(name),
        None => false,
    }
}

/// Whether some anchor in a node is named by an alias.
#[cycle(used)]
pub(crate) fn is_used_in(aliases: &Aliases<'_>, node: &Node<'_, '_>) -> bool
    ensures { OfAliases aliases.now (λ names. result ≡ holds_used_anchor names node.now) }
{
    is_named(aliases, node) || is_used_inside(aliases, node)
}

/// The same, its own excepted.
#[cycle(used)]
pub(crate) fn is_used_inside(aliases: &Aliases<'_>, node: &Node<'_, '_>) -> bool
    ensures { OfAliases aliases.now (λ names. result ≡ holds_used_below names node.now) }
{
    let mut children = node.children();
    'each: while let Some(child) = children.next() {
        if is_used_in(aliases, &child) {
            return true;
        }
    }
    false
}
