//! Whether splices can be done on a text, found without memory.
ghost use Rattle.std.specs.Prelude.{◌≡◌, ◌≢◌, ◌+◌, ◌-◌, ◌<◌, ◌≤◌, ◌↔◌, IfSome, IsTrue, List, None, Some, length, is_some, slice_get, ℕ};
ghost use Rattle.yq_text.specs.Splice.{all_done, flipped, lengths_done};
ghost use Rattle.yq_journal.specs.Record.{done, undone};
ghost use Rattle.yq_journal.specs.Turned.{IsNth, IsMovedFrom, FirstMake, HoldsAt, IfFirstMake, FitAt, turned_splices};

use crate::Record;
use yq_text::Splice;

/// Splices as they are done, or, the last one first, as they are taken back.
#[derive(Clone, Copy)]
pub(crate) struct Turned<'a> {
    pub(crate) splices: &'a [Splice],
    pub(crate) back: bool,
}

/// The splice at a place: its offset, the bytes that it finds and those that
/// it puts there.
fn nth<'a>(turned: &Turned<'a>, k: usize) -> (usize, &'a [u8], &'a [u8])
    requires { k < length turned.now.splices.now }
    ensures { IsNth turned.now k result.0 result.1.now result.2.now }
{
    let splices = turned.splices;
    if turned.back {
        let splice = &splices[splices.len() - 1 - k];
        (splice.at as usize, &splice.new, &splice.old)
    } else {
        let splice = &splices[k];
        (splice.at as usize, &splice.old, &splice.new)
    }
}

/// Where a byte came from over a splice: `None` where the splice put it there.
fn origin(i: usize, start: usize, old_len: usize, new_len: usize) -> Option<usize>
    requires { start + new_len ≤ i → i - new_len + old_len ≤ usize.MAX }
    ensures outside { IfSome result (λ j. IsMovedFrom i start old_len new_len j) }
    ensures inside { result ≡ None → (start ≤ i) × (i < start + new_len) }
{
    if i < start {
        Some(i)
    } else if i - start < new_len {
        None
    } else {
        Some(i - new_len + old_len)
    }
}

/// The byte at an offset, if the bytes reach so far.
fn byte_at(bytes: &[u8], i: usize) -> Option<u8>
    ensures { result ≡ slice_get bytes.now i }
{
    bytes.get(i).copied()
}

/// A byte of the text that the first splices make of a text.
fn byte_after(turned: &Turned<'_>, count: usize, text: &[u8], at: usize) -> Option<u8>
    requires within { count ≤ length turned.now.splices.now }
    requires lengths { lengths_done (turned_splices turned.now) (length text.now) ≢ None }
    requires done { (b : List ℕ) × FirstMake turned.now count text.now b × (at < length b) }
    ensures { IfFirstMake turned.now count text.now (λ b. result ≡ slice_get b at) }
{
    let mut left = count;
    let mut i = at;
    'splices: while left > 0 {
        left -= 1;
        let (start, old, new) = nth(turned, left);
        match origin(i, start, old.len(), new.len()) {
            Some(next) => i = next,
            None => return byte_at(new, i - start),
        }
    }
    byte_at(text, i)
}

/// Whether bytes are at an offset of the text that the first splices make.
fn is_there(turned: &Turned<'_>, count: usize, text: &[u8], at: usize, old: &[u8]) -> bool
    requires within { count ≤ length turned.now.splices.now }
    requires lengths { lengths_done (turned_splices turned.now) (length text.now) ≢ None }
    requires done { (b : List ℕ) × FirstMake turned.now count text.now b × FitAt at old.now b }
    ensures { IfFirstMake turned.now count text.now (λ b. IsTrue result ↔ HoldsAt at old.now b) }
{
    'bytes: for j in 0..old.len() {
        if byte_after(turned, count, text, at + j) != Some(old[j]) {
            return false;
        }
    }
    true
}

/// Whether splices can be done on a text one after the other, or taken back.
fn are_there(turned: &Turned<'_>, text: &[u8]) -> bool
    requires { lengths_done (turned_splices turned.now) (length text.now) ≢ None }
    ensures { result ≡ is_some (all_done (turned_splices turned.now) text.now) }
{
    'splices: for k in 0..turned.splices.len() {
        let (at, old, _) = nth(turned, k);
        if !is_there(turned, k, text, at, old) {
            return false;
        }
    }
    true
}

/// Whether a record can be done on a text: the text has the length `before_len`, and each splice finds
/// its old bytes, one after the other. Takes no memory.
pub fn stands_before(patch: &Record, text: &[u8]) -> bool
    ensures { result ≡ is_some (done patch.now text.now) }
{
    let done = Turned {
        splices: &patch.splices,
        back: false,
    };
    text.len() as u64 == patch.before_len && are_there(&done, text)
}

/// Whether splices that led from a length to that of a text can be taken back.
fn may_take_back(splices: &[Splice], _before_len: u64, text: &[u8]) -> bool
    requires { lengths_done splices.now _before_len ≡ Some (length text.now) }
    ensures { result ≡ is_some (all_done (flipped splices.now) text.now) }
{
    let taken_back = Turned {
        splices,
        back: true,
    };
    are_there(&taken_back, text)
}

/// Whether a record can be undone on a text: the text has the length `after_len`, and each splice, from
/// the last to the first, finds its new bytes. Takes no memory.
pub fn stands_after(patch: &Record, text: &[u8]) -> bool
    ensures { result ≡ is_some (undone patch.now text.now) }
{
    text.len() as u64 == patch.after_len && may_take_back(&patch.splices, patch.before_len, text)
}
