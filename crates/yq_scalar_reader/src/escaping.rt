//! Escapes in double quotes, with the bytes before them (YAML 1.2.2, section 5.7).
ghost use Rattle.std.specs.Prelude.{◌<◌, length, IfSome};
ghost use Rattle.yq_scalar_reader.specs.Folded.{IsEscaped};

use crate::folded::{FoldedItem, fold_escape};
use yq_core::{Run, first_is, run_len};

/// The bytes in front that mean themselves up to a backslash, and the escape there.
#[inline(always)]
pub(crate) fn split_escape(text: &str) -> Option<(&str, FoldedItem<'_>)>
    ensures value { IfSome result (λ x. IsEscaped text.now x.0.now x.1) }
    ensures shorter { IfSome result (λ x. length x.1.rest.now < length text.now) }
{
    let n = run_len(Run::Quoted(b'"'), text.as_bytes());
    if !first_is(b'\\', text.as_bytes().split_at(n).1) {
        return None;
    }
    let (words, slash) = text.split_at(n);
    Some((words, fold_escape(slash)))
}
