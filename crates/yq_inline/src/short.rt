//! Scalars, keys and what separates items, as they are written most often.
ghost use Rattle.std.specs.Prelude.{◌≡◌, ◌<◌, ◌≤◌, ◌∷◌, IfSome, IsTrue, Some, length, true};
ghost use Rattle.yq_core.specs.PlacedReading.{past_sep};
ghost use Rattle.yq_inline.specs.Short as spec;

use crate::lead::near_gap;
use crate::pieces::begins_content;
use yq_core::{Run, first_is, run_len, strip};
use yq_scalar_reader::plain::begins_plain;

/// Whether a plain scalar that a run of bytes spells ends here.
#[inline(always)]
fn stops_plain(text: &[u8]) -> bool
    ensures { result ≡ spec.stops_plain text.now }
{
    matches!(text, [b',' | b']' | b'}', ..] | [b':', b' ', ..])
}

/// Whether a `:` and one space are in front.
#[inline(always)]
fn is_spaced_colon(text: &[u8]) -> bool
    ensures { IsTrue result → spec.stops_plain text.now ≡ true }
{
    matches!(text, [b':', b' ', ..])
}

/// The scalar in double quotes in front that a run of bytes fills, and what follows it.
#[inline(always)]
fn short_quoted(text: &str) -> Option<(&str, &str)>
    ensures short { IfSome result (λ x. spec.IsShortScalar text.now x.0.now x.1.now) }
    ensures shorter { IfSome result (λ x. length x.1.now ≤ length text.now) }
{
    let inner = strip(b'"', text)?.as_bytes();
    let n = run_len(Run::Quoted(b'"'), inner);
    if !first_is(b'"', inner.split_at(n).1) {
        return None;
    }
    Some(text.split_at(n + 2))
}

/// The plain scalar in front that a run of bytes spells, and what follows it.
#[inline(always)]
fn short_plain(text: &str) -> Option<(&str, &str)>
    ensures short { IfSome result (λ x. spec.IsShortScalar text.now x.0.now x.1.now) }
    ensures shorter { IfSome result (λ x. length x.1.now ≤ length text.now) }
{
    let bytes = text.as_bytes();
    if !begins_plain(true, bytes) {
        return None;
    }
    let n = run_len(Run::Plain, bytes);
    if !stops_plain(bytes.split_at(n).1) {
        return None;
    }
    Some(text.split_at(n))
}

/// The scalar in front, where it is in double quotes or plain and one run of bytes, and what follows it.
#[inline(always)]
pub fn short_scalar(text: &str) -> Option<(&str, &str)>
    ensures short { IfSome result (λ x. spec.IsShortScalar text.now x.0.now x.1.now) }
    ensures shorter { IfSome result (λ x. length x.1.now ≤ length text.now) }
{
    match text.as_bytes() {
        [b'"', ..] => short_quoted(text),
        [b'[' | b'{', ..] => None,
        _ => short_plain(text),
    }
}

/// What follows the `:` and the one space in front.
#[inline(always)]
fn past_colon(text: &str) -> Option<&str>
    ensures colon { IfSome result (λ r. text.now ≡ 58 ∷ 32 ∷ r.now) }
    ensures shorter { IfSome result (λ r. length r.now < length text.now) }
{
    let after = strip(b':', text)?;
    let rest = strip(b' ', after)?;
    Some(rest)
}

/// The plain key in front that a run of bytes spells before `:` and one space, and what follows these.
#[inline(always)]
fn plain_key(text: &str) -> Option<(&str, &str)>
    ensures key { IfSome result (λ x. spec.IsSpacedKey text.now x.0.now x.1.now) }
    ensures shorter { IfSome result (λ x. length x.1.now < length text.now) }
{
    let bytes = text.as_bytes();
    if !begins_plain(true, bytes) {
        return None;
    }
    let n = run_len(Run::Plain, bytes);
    if !is_spaced_colon(bytes.split_at(n).1) {
        return None;
    }
    let (key, rest) = text.split_at(n);
    let value = past_colon(rest)?;
    Some((key, value))
}

/// The key in double quotes in front that a run of bytes fills, before `:` and one space, and what follows these.
#[inline(always)]
fn quoted_key(text: &str) -> Option<(&str, &str)>
    ensures key { IfSome result (λ x. spec.IsSpacedKey text.now x.0.now x.1.now) }
    ensures shorter { IfSome result (λ x. length x.1.now < length text.now) }
{
    let (key, rest) = short_quoted(text)?;
    let value = past_colon(rest)?;
    Some((key, value))
}

/// The key in front, where it is in double quotes or plain and one run of bytes before `:` and one space, and what
/// follows these.
#[inline(always)]
fn spaced_key(text: &str) -> Option<(&str, &str)>
    ensures key { IfSome result (λ x. spec.IsSpacedKey text.now x.0.now x.1.now) }
    ensures shorter { IfSome result (λ x. length x.1.now < length text.now) }
{
    match text.as_bytes() {
        [b'"', ..] => quoted_key(text),
        [b'[' | b'{', ..] => None,
        _ => plain_key(text),
    }
}

/// The same, where a node begins after it.
#[inline(always)]
pub fn short_key(text: &str) -> Option<(&str, &str)>
    ensures short { IfSome result (λ x. spec.IsShortKey text.now x.0.now x.1.now) }
    ensures shorter { IfSome result (λ x. length x.1.now < length text.now) }
{
    let (key, value) = spaced_key(text)?;
    if !begins_content(true, value.as_bytes()) {
        return None;
    }
    Some((key, value))
}

/// What follows an item, and the comma and the gap after it if there is one, where no gap is before the
/// comma, and nothing, one space, or a break and spaces before the closing bracket.
#[inline(always)]
pub(crate) fn short_sep(close: u8, text: &str) -> Option<&str>
    ensures read { IfSome result (λ r. past_sep close text.now ≡ Some r.now) }
    ensures shorter { IfSome result (λ r. length r.now ≤ length text.now) }
{
    if let Some(after) = strip(b',', text) {
        let (_, rest) = near_gap(after)?;
        return Some(rest);
    }
    let (_, rest) = near_gap(text)?;
    if first_is(b',', rest.as_bytes()) || !first_is(close, rest.as_bytes()) {
        return None;
    }
    Some(rest)
}
