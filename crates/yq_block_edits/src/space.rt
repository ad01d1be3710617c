//! A text in the place of another on a line.
ghost use Rattle.std.specs.Prelude.{◌≡◌, IfOk, string_bytes};
ghost use Rattle.yq_edit_rules.specs.ReplaceEdits as spec;

use std::alloc::{AllocError, Global};
use yq_edit_rules::after_a_space;

/// A text as it is put in the place of another: after a space, where none is there.
///
/// # Errors
/// [`AllocError`] where memory is refused.
pub fn apart(alloc: Global, old: &str, new: String) -> Result<String, AllocError>
    ensures { IfOk result (λ s. string_bytes s ≡ spec.spaced_text old.now (string_bytes new)) }
{
    if old.is_empty() {
        return after_a_space(alloc, &new);
    }
    Ok(new)
}
