//! Which texts are in a JSON string as they are: sixteen bytes are looked at at once.
ghost use Rattle.std.{specs.Prelude.{◌≡◌, ◌≤◌, ◌+◌, length}, specs.Bool.OnTrue};
ghost use Rattle.yq_journal.specs.Bare as spec;

use std::simd::prelude::*;

/// Whether JSON escapes a byte of a text, or it is from the limit on.
#[inline(always)]
fn is_special(limit: u8, byte: u8) -> bool
    ensures { result ≡ spec.is_special limit byte }
{
    byte < b' ' || byte == b'"' || byte == b'\\' || byte >= limit
}

/// Whether none of sixteen bytes is special.
#[inline(always)]
fn are_bare(limit: u8, text: &[u8], at: usize) -> bool
    requires { at + 16 ≤ length text.now }
    ensures { OnTrue result (spec.IsBareBetween limit text.now at (at + 16)) }
{
    let v = u8x16::from_slice(&text[at..]);
    (v.simd_lt(u8x16::splat(b' '))
        | v.simd_eq(u8x16::splat(b'"'))
        | v.simd_eq(u8x16::splat(b'\\'))
        | v.simd_ge(u8x16::splat(limit))).to_bitmask()
        == 0
}

/// Whether no byte of a text is special, tested one by one.
#[inline(always)]
fn is_bare_short(limit: u8, text: &[u8]) -> bool
    ensures { OnTrue result (spec.IsBare limit text.now) }
{
    'bytes: for i in 0..text.len() {
        if is_special(limit, text[i]) {
            return false;
        }
    }
    true
}

/// Whether no byte of a text is special. Of the last sixteen some may be looked at twice.
#[inline(always)]
fn is_bare_long(limit: u8, text: &[u8]) -> bool
    requires { 16 ≤ length text.now }
    ensures { OnTrue result (spec.IsBare limit text.now) }
{
    let mut at = 0;
    'lanes: while text.len() - at > 16 {
        if !are_bare(limit, text, at) {
            return false;
        }
        at += 16;
    }
    are_bare(limit, text, text.len() - 16)
}

/// Whether JSON escapes none of the bytes of a text, and all of them are below a limit.
pub fn is_bare_below(limit: u8, text: &[u8]) -> bool
    ensures { OnTrue result (spec.IsBare limit text.now) }
{
    if text.len() < 16 {
        is_bare_short(limit, text)
    } else {
        is_bare_long(limit, text)
    }
}
