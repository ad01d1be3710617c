//! Where a text is at fault.
ghost use Rattle.std.specs.Prelude.{◌≡◌, ◌-◌, length};
ghost use Rattle.yq_core.specs.FaultPlace.{IsFaultAt};

use crate::fault::{FaultKind, ReadFault};
use memchr::memchr_iter;
use std::num::NonZeroU64;

/// A fault that begins at an offset, in bytes, of a text.
pub fn fault_at(kind: FaultKind, text: &[u8], at: usize) -> ReadFault
    ensures kind { result.kind ≡ kind }
    ensures place { IsFaultAt text.now at result }
{
    let at = at.min(text.len());
    let before = text.split_at(at).0;
    let feeds = memchr_iter(b'\n', before).count() as u64;
    ReadFault {
        kind,
        at,
        line: NonZeroU64::MIN.saturating_add(feeds),
    }
}

/// A fault that begins where this rest of the whole text does.
pub fn fault(kind: FaultKind, whole: &str, rest: &str) -> ReadFault
    ensures kind { result.kind ≡ kind }
    ensures place { IsFaultAt whole.now (length whole.now - length rest.now) result }
{
    fault_at(
        kind,
        whole.as_bytes(),
        whole.len().saturating_sub(rest.len()),
    )
}
