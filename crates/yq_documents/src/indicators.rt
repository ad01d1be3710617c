//! What the indicator in front of an anchor or a head says.
ghost use Rattle.std.specs.Prelude.{◌≡◌, option_map};
ghost use Rattle.yq_documents.specs.RowReading as spec;

use yq_core::strip;

/// The name of an anchor that is written with its `&`.
pub fn anchor_name(anchor: &str) -> Option<&str>
    ensures { option_map (λ s. s.now) result ≡ spec.name_in anchor.now }
{
    strip(b'&', anchor)
}

/// Whether a head is the header of a block scalar.
pub fn is_block_head(head: &[u8]) -> bool
    ensures { result ≡ spec.is_block_head head.now }
{
    matches!(head, [b'|' | b'>', ..])
}
