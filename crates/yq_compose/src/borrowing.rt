//! Heads that the text lends.
ghost use Rattle.std.specs.Prelude.{◌≡◌, ◌<◌, IfSome, IsTrue};
ghost use Rattle.yq_documents.specs.Decoded.{opens_collection};
ghost use Rattle.yq_compose.specs.Borrowing as spec;

use yq_documents::BORROWED_DEPTH;
use yq_inline::{Keys, pass_head};

/// Whether a sequence or mapping in flow style begins so.
fn opens_collection(head: &[u8]) -> bool
    ensures { result ≡ opens_collection head.now }
{
    matches!(head, [b'[' | b'{', ..])
}

/// How many collections are nested at most in the one in front, if its scalars are slices of the text: `depth`, or,
/// where that is 0, the number that is found by passing it.
fn head_depth<'t>(keys: &mut Keys<'t>, depth: usize, text: &'t str) -> Option<usize>
    requires { 0 < depth → spec.PassesHead depth text.now }
    ensures { IfSome result (λ d. spec.PassesHead d text.now) }
{
    if depth > 0 {
        return Some(depth);
    }
    let passed = pass_head(keys, text)?;
    Some(passed.nested)
}

/// Whether a head which is written so and with which the text begins is a flow collection that the text lends, and
/// whose keys are fit and differ; its depth is 0 where nothing is known of it.
pub(crate) fn lends_head<'t>(keys: &mut Keys<'t>, depth: usize, head: &str, text: &'t str) -> bool
    requires known { 0 < depth → spec.PassesHead depth text.now }
    ensures { IsTrue result → spec.LendsHead head.now text.now }
{
    if !opens_collection(head.as_bytes()) {
        return false;
    }
    match head_depth(keys, depth, text) {
        Some(depth) => depth <= BORROWED_DEPTH,
        None => false,
    }
}
