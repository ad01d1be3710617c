//! How block style looks.

use yq_core::Break;

/// The break between lines, and by how many columns a mapping, and a sequence, is deeper than
/// its key (YAML 1.2.2, 8.2).
#[derive(Clone, Copy)]
pub struct Layout {
    pub br: Break,
    pub mapping: usize,
    pub sequence: usize,
}
