//! The first break of a text, and whether the text keeps it, whatever is put on lines at places.
ghost use Rattle.std.specs.Prelude.{◌≡◌, ◌++◌, ℕ, List, true, IfSome};
ghost use Rattle.yq_text.specs.Halves.{whole};
ghost use Rattle.yq_core.specs.Plain.{holds_break};
ghost use Rattle.yq_places.specs.FirstBreak.{first_break};
ghost use Rattle.yq_batch.specs.KeptBreaks as spec;

use crate::slots::SlotPlace;
use yq_core::characters::holds_byte;
use yq_core::lines::text_len;
use yq_core::{Break, first_is};
use yq_text::Halves;

/// Among how many of the first bytes of a text its first break is looked for.
const NEAR_BREAK: usize = 1024;

/// The break that ends the first line of a text, if it is near.
pub(crate) fn near_break(text: &[u8]) -> Option<Break>
    ensures { IfSome result (λ b. (more : List ℕ) → first_break (text.now ++ more) ≡ b) }
{
    let near = text.split_at(text.len().min(NEAR_BREAK)).0;
    let end = text_len(near);
    if end >= near.len() {
        return None;
    }
    if first_is(b'\r', near.split_at(end).1) {
        return Some(Break::CrLf);
    }
    Some(Break::Lf)
}

/// Whether a break is in a text, near its beginning.
fn breaks_near(text: &[u8]) -> bool
    ensures { result ≡ true → holds_break text.now ≡ true }
{
    near_break(text).is_some() && holds_byte(b'\n', text)
}

/// Whether two breaks are the same.
pub(crate) fn is_same_break(one: Break, other: Break) -> bool
    ensures { result ≡ true → one ≡ other }
{
    match (one, other) {
        (Break::Lf, Break::Lf) | (Break::CrLf, Break::CrLf) => true,
        _ => false,
    }
}

/// Whether the first break of a text is near, and like the first one between two offsets.
fn breaks_alike(text: Halves<'_>, start: usize, end: usize) -> bool
    ensures { result ≡ true → spec.BreaksAlike (whole text.entry) start end }
{
    let front = text.front.as_bytes();
    if start > end || end > front.len() {
        return false;
    }
    let between = front.split_at(end).0.split_at(start).1;
    if !holds_byte(b'\n', between) {
        return false;
    }
    let Some(own) = near_break(front) else {
        return false;
    };
    let Some(part) = near_break(between) else {
        return false;
    };
    is_same_break(own, part)
}

/// Whether the first break of a text is near, and stays what it is, whatever is put on lines at places.
pub(crate) fn keeps_first_break(text: Halves<'_>, places: &[SlotPlace]) -> bool
    ensures { result ≡ true → spec.KeepsFirstBreak (whole text.entry) places.now }
{
    let [first, others @ ..] = places else {
        return false;
    };
    let front = text.front.as_bytes();
    let line = front.split_at(first.start.min(front.len())).0;
    if breaks_near(line) {
        return true;
    }
    let [next, ..] = others else {
        return false;
    };
    if first.start > front.len() || holds_byte(b'\n', line) || holds_byte(b'\r', line) {
        return false;
    }
    breaks_alike(text, first.end, next.start)
}
