//! The gap between two tokens, and that after an opening bracket, read.
ghost use Rattle.std.specs.Prelude.{◌≡◌, ◌≢◌, ◌≤◌, IfErr, IfOk, IfSome, Some, length};
ghost use Rattle.yq_core.{specs.Answers.ReadsAs, specs.declared.fault.FaultKind.TheVariants.NotUtf8};
ghost use Rattle.yq_inline.specs.Forms.{after_bracket};
ghost use Rattle.yq_core.specs.Reading as reading;
ghost use Rattle.yq_inline.specs.Short as spec;

use yq_core::fault_place::fault;
use yq_core::text::{is_marker, spaces_len};
use yq_core::{FaultKind, ReadFault, gap_len, strip};

/// Whether a byte is in front with which no gap and no comment begins.
#[inline(always)]
pub(crate) fn is_token(text: &[u8]) -> bool
    ensures { result ≡ spec.is_token text.now }
{
    matches!(text, [b'"' | b'$'..=255, ..])
}

/// The gap in front, and what follows it, where that gap is nothing or one space.
#[inline(always)]
#[tactic(auto, using(crate::proofs::GapSteps::token_gap, crate::proofs::GapSteps::token_after_space))]
fn short_gap(text: &str) -> Option<(&str, &str)>
    ensures read { IfSome result (λ x. reading.read_gap text.now ≡ Some (x.0.now, x.1.now)) }
    ensures shorter { IfSome result (λ x. length x.1.now ≤ length text.now) }
{
    if is_token(text.as_bytes()) {
        return Some(("", text));
    }
    let rest = strip(b' ', text)?;
    if !is_token(rest.as_bytes()) {
        return None;
    }
    Some((" ", rest))
}

/// The gap in front, and what follows it, where that gap is a break and spaces.
fn line_gap(text: &str) -> Option<(&str, &str)>
    ensures read { IfSome result (λ x. reading.read_gap text.now ≡ Some (x.0.now, x.1.now)) }
    ensures shorter { IfSome result (λ x. length x.1.now ≤ length text.now) }
{
    let line = strip(b'\n', text)?;
    let n = spaces_len(line.as_bytes());
    if n == 0 {
        return None;
    }
    let (gap, after) = text.split_at(n + 1);
    if !is_token(after.as_bytes()) {
        return None;
    }
    Some((gap, after))
}

/// The gap in front, and what follows it.
#[tactic(auto, unfolding(yq_core::specs::Reading::read_gap))]
fn long_gap<'t>(whole: &str, text: &'t str) -> Result<(&'t str, &'t str), ReadFault>
    ensures read { ReadsAs (λ x. (x.0.now, x.1.now)) result (reading.read_gap text.now) }
    ensures shorter { IfOk result (λ x. length x.1.now ≤ length text.now) }
    ensures fault { IfErr result (λ f. f.kind ≢ NotUtf8) }
{
    let (n, line) = gap_len(text.as_bytes());
    let (gap, rest) = text.split_at(n);
    if line && is_marker(rest.as_bytes()) {
        return Err(fault(FaultKind::BadFlow, whole, rest));
    }
    Ok((gap, rest))
}

/// The gap in front, and what follows it, where that gap is nothing, one space, or a break and spaces.
#[inline(always)]
pub(crate) fn near_gap(text: &str) -> Option<(&str, &str)>
    ensures read { IfSome result (λ x. reading.read_gap text.now ≡ Some (x.0.now, x.1.now)) }
    ensures shorter { IfSome result (λ x. length x.1.now ≤ length text.now) }
{
    if let Some(found) = short_gap(text) {
        return Some(found);
    }
    line_gap(text)
}

/// The gap in front, and what follows it.
#[inline(always)]
pub fn read_gap<'t>(whole: &str, text: &'t str) -> Result<(&'t str, &'t str), ReadFault>
    ensures read { ReadsAs (λ x. (x.0.now, x.1.now)) result (reading.read_gap text.now) }
    ensures shorter { IfOk result (λ x. length x.1.now ≤ length text.now) }
    ensures fault { IfErr result (λ f. f.kind ≢ NotUtf8) }
{
    match near_gap(text) {
        Some(found) => Ok(found),
        None => long_gap(whole, text),
    }
}

/// What follows an opening bracket and the gap after it, where so many collections may be nested still.
#[inline(always)]
pub(crate) fn read_open<'t>(whole: &str, depth: usize, text: &'t str) -> Result<&'t str, ReadFault>
    ensures read { ReadsAs (λ x. x.now) result (after_bracket depth text.now) }
    ensures shorter { IfOk result (λ x. length x.now ≤ length text.now) }
    ensures room { IfOk result (λ x. 1 ≤ depth) }
    ensures fault { IfErr result (λ f. f.kind ≢ NotUtf8) }
{
    let (_, rest) = read_gap(whole, text)?;
    if depth == 0 {
        return Err(fault(FaultKind::TooDeep, whole, text));
    }
    Ok(rest)
}
