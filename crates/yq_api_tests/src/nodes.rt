//! A node at its path, and where it is: calls that the program doesn't make.

use std::alloc::Global;
use yq_tree::{Documents, Part, Path, extent, locate, read};

/// Whether the node at the root of a document has an entry with the key, the anchor and the comments that are
/// written, and its content is where it is written.
fn is_as_written(documents: &Documents<'_>, path: &Path) -> bool {
    let Some(root) = locate(documents, path) else {
        return false;
    };
    let Some(node) = root.entry("k") else {
        return false;
    };
    let Some(content) = extent(documents, path, Part::Content) else {
        return false;
    };
    let mut above = node.head_comment();
    matches!(node.key(), Some("k"))
        && matches!(node.anchor(), Some("x"))
        && matches!(above.next(), Some("one"))
        && matches!(node.line_comment(), Some("two"))
        && content.start == 0
        && content.end == 26
}

/// Whether it is so in a text.
fn is_found(alloc: Global) -> bool {
    match read(alloc, b"a: 1\n# one\nk: &x [2] # two\n") {
        Ok(documents) => {
            let steps = Vec::new(alloc);
            is_as_written(&documents, &Path { doc: 0, steps })
        }
        Err(_) => false,
    }
}

#[test]
fn a_node_at_its_path(rt: HostRuntime) {
    assert!(rt; is_found(rt.alloc()));
}
