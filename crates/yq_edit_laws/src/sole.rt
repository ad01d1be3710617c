//! The empty collection that is put in the place of one whose sole item or entry is removed.
ghost use Rattle.std.specs.Prelude.{◌≡◌, IfOk, List, ℕ, option_map};
ghost use Rattle.yq_documents.{specs.Located.steps_of, specs.Reading.cut_of};
ghost use Rattle.yq_places.{specs.NodesAt.node_view, specs.Placements.last_step as last_of};
ghost use Rattle.yq_core.specs.Values as values;
ghost use Rattle.yq_edit_laws.specs.Emptying as spec;

use crate::edit::last_step;
use std::alloc::{AllocError, Global};
use yq_core::{Value, copied_steps};
use yq_documents::Path;
use yq_places::NodeAt;

/// The empty collection of the kind of this one.
fn emptied(alloc: Global, node: &NodeAt<'_>) -> Option<Value>
    ensures { option_map values.value_node result ≡ spec.emptied_summary (node_view node.now) }
{
    match node {
        NodeAt::List(_) => Some(Value::List(Vec::new(alloc))),
        NodeAt::Map(_) => Some(Value::Map(Vec::new(alloc))),
        NodeAt::Alias | NodeAt::Scalar(..) => None,
    }
}

/// The path of the collection in which a path ends, by what the node there is, and the empty one that is put in its
/// place; `None` where the path has no step, or the node is no sequence or mapping.
///
/// # Errors
/// [`AllocError`] where memory is refused.
pub fn emptying(
    alloc: Global,
    path: &Path,
    node: &NodeAt<'_>,
) -> Result<Option<(Path, Value)>, AllocError>
    ensures { (t : List ℕ) → spec.IsNodeAbove t path.now node.now →
        IfOk result (λ o. option_map spec.emptied_view o ≡
        spec.emptying path.now.doc (cut_of t) (last_of (steps_of path.now))) }
{
    let Some((above, _)) = last_step(&path.steps) else {
        return Ok(None);
    };
    let Some(value) = emptied(alloc, node) else {
        return Ok(None);
    };
    let place = Path {
        doc: path.doc,
        steps: copied_steps(alloc, above)?,
    };
    Ok(Some((place, value)))
}
