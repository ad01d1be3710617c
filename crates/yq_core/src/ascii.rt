//! Texts in ASCII, sixty-four bytes at a time.
ghost use Rattle.std.{specs.List.prefix_len, specs.Prelude.{◌≡◌, ◌+◌, ◌≤◌, IsTrue, length, map}, specs.Simd.Lanes.{chunk, mask_l}};
ghost use Rattle.yq_core.specs.Runs as spec;

use std::simd::prelude::*;

/// The lanes that hold neither a visible character of ASCII nor a space nor an LF, as bits.
#[inline(always)]
fn other_lanes(v: u8x64) -> u64
    ensures { result ≡ mask_l (map spec.is_other_byte v) }
{
    let controls = v.simd_lt(u8x64::splat(b' ')) & v.simd_ne(u8x64::splat(b'\n'));
    (controls | v.simd_gt(u8x64::splat(b'~'))).to_bitmask()
}

/// Whether sixty-four bytes are visible characters of ASCII, spaces and LFs.
#[inline(always)]
fn is_ascii_block(text: &[u8], at: usize) -> bool
    requires { at + 64 ≤ length text.now }
    ensures { IsTrue result → 64 ≤ prefix_len spec.is_ascii_byte (chunk at 64 text.now) }
{
    other_lanes(u8x64::from_slice(&text[at..])) == 0
}

/// How many bytes in front are visible characters of ASCII, spaces and LFs, in whole blocks.
pub(crate) fn ascii_len(text: &[u8]) -> usize
    ensures value { result ≤ prefix_len spec.is_ascii_byte text.now }
    ensures within { result ≤ length text.now }
{
    let mut at = 0;
    'lanes: while text.len() - at >= 64 {
        if !is_ascii_block(text, at) {
            return at;
        }
        at += 64;
    }
    at
}
