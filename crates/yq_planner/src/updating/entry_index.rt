//! The entries of a mapping, by their keys.
ghost use Rattle.std.specs.Prelude.{IfOk};
ghost use Rattle.yq_core.specs.Tree.{children_of};
ghost use Rattle.yq_nodes.specs.Nodes.{node_of};
ghost use Rattle.yq_planner.{specs.Indexes.IsIndex, specs.ChangeAnswers.{OfEntries, KeepsFirst, IsValueOf}};

use std::alloc::{AllocError, Global};
use std::collections::BTreeMap;
use yq_nodes::Node;

/// The first value of each key.
pub(crate) type EntryIndex<'d, 't> = BTreeMap<&'d str, Node<'d, 't>>;

/// Keeps the value of an entry, if there is none for its key.
fn keep<'d, 't>(index: &mut EntryIndex<'d, 't>, entry: &Node<'d, 't>) -> Result<(), AllocError>
    ensures { KeepsFirst result index.old index.new entry.now }
{
    let Some(key) = entry.key() else {
        return Ok(());
    };
    if !index.contains_key(key) {
        index.insert(key, *entry)?;
    }
    Ok(())
}

/// The entries of a node, by their keys.
pub(crate) fn index_of<'d, 't>(
    alloc: Global,
    node: &Node<'d, 't>,
) -> Result<EntryIndex<'d, 't>, AllocError>
    ensures { IfOk result (λ m. IsIndex (children_of (node_of node.now)) m) }
{
    let mut index = BTreeMap::new(alloc);
    let mut entries = node.children();
    'each: while let Some(entry) = entries.next() {
        keep(&mut index, &entry)?;
    }
    Ok(index)
}

/// The value of the entry of a key.
pub fn find<'i, 'd, 't>(index: &'i EntryIndex<'d, 't>, key: &str) -> Option<&'i Node<'d, 't>>
    ensures { OfEntries index.now (λ cs. IsValueOf cs key.now result) }
{
    index.get(key)
}
