//! Nodes by their paths.
ghost use Rattle.std.specs.Prelude.{◌≡◌, option_map};
ghost use Rattle.yq_documents.specs.Located.{labelled_located, located};
ghost use Rattle.yq_nodes.specs.Nodes.{labelled_of, node_of};
ghost use Rattle.yq_documents.specs.LinesInRows as spec;

use yq_documents::{Documents, Part, Path};
use yq_lookup::CutText;
use yq_nodes::Node;

/// The node at a path, with its key and comments; `None` if the path leads to no node.
pub fn locate<'d, 't>(documents: &'d Documents<'t>, path: &Path) -> Option<Node<'d, 't>>
    ensures node { option_map node_of result ≡ located path.now documents.now }
    ensures labelled { option_map labelled_of result ≡ labelled_located path.now documents.now }
{
    if path.doc >= documents.count() {
        return None;
    }
    let root = Node::root(documents, path.doc);
    root.descend(&path.steps)
}

/// Whether the text has room for a comment at the node of a path, as
/// [`CutText::has_room`](yq_lookup::CutText::has_room) says.
pub fn has_room(documents: &Documents<'_>, path: &Path, part: Part) -> bool
    ensures { result ≡ spec.has_room path.now part documents.now }
{
    CutText::of(documents).has_room(path, part)
}
