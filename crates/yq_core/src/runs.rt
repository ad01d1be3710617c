//! Runs of bytes, sixteen at a time.
ghost use Rattle.std.{specs.List.prefix_len, specs.Prelude.{◌≡◌, ◌+◌, ◌≤◌, length, map}, specs.Simd.Lanes.{chunk, mask_l}};
ghost use Rattle.yq_core.specs.declared.runs.Run.TheVariants.{Plain, Quoted, Spaces, Text};
ghost use Rattle.yq_core.specs.Runs as spec;

use std::simd::prelude::*;

/// What a run is made of.
#[derive(Clone, Copy)]
pub enum Run {
    /// Bytes that are in characters of a text alone.
    Text,
    /// Spaces.
    Spaces,
    /// Bytes at which no plain scalar ends, whatever follows them.
    Plain,
    /// Bytes that mean themselves between such quotes.
    Quoted(u8),
}

/// Whether the run stops at this byte.
#[inline(always)]
fn is_stop(run: Run, b: u8) -> bool
    ensures { result ≡ spec.is_stop run b }
{
    match run {
        Run::Text => !matches!(
            b,
            b'\t' | b'\n' | b'\r' | b' '..=b'~' | 128..=193 | 195..=238 | 240..=255
        ),
        Run::Spaces => b != b' ',
        Run::Plain => b <= b' ' || matches!(b, b':' | b',' | b'[' | b']' | b'{' | b'}'),
        Run::Quoted(quote) => b == quote || matches!(b, b'\\' | b'\n'),
    }
}

/// The lanes that hold no byte of a text, as bits.
#[inline(always)]
fn text_stops(v: u8x16) -> u64
    ensures { result ≡ mask_l (map (spec.is_stop Text) v) }
{
    let controls = v.simd_lt(u8x16::splat(b' '))
        & v.simd_ne(u8x16::splat(b'\t'))
        & v.simd_ne(u8x16::splat(b'\n'))
        & v.simd_ne(u8x16::splat(b'\r'));
    (controls
        | v.simd_eq(u8x16::splat(127))
        | v.simd_eq(u8x16::splat(194))
        | v.simd_eq(u8x16::splat(239))).to_bitmask()
}

/// The lanes that hold no space, as bits.
#[inline(always)]
fn no_spaces(v: u8x16) -> u64
    ensures { result ≡ mask_l (map (spec.is_stop Spaces) v) }
{
    v.simd_ne(u8x16::splat(b' ')).to_bitmask()
}

/// The lanes at which a plain scalar may end, as bits. With 32 in it a bracket is a brace.
#[inline(always)]
fn plain_stops(v: u8x16) -> u64
    ensures { result ≡ mask_l (map (spec.is_stop Plain) v) }
{
    let braces = v | u8x16::splat(32);
    (v.simd_le(u8x16::splat(b' '))
        | v.simd_eq(u8x16::splat(b':'))
        | v.simd_eq(u8x16::splat(b','))
        | braces.simd_eq(u8x16::splat(b'{'))
        | braces.simd_eq(u8x16::splat(b'}'))).to_bitmask()
}

/// The lanes with the quote, a backslash or an LF, as bits.
#[inline(always)]
fn quoted_stops(quote: u8, v: u8x16) -> u64
    ensures { result ≡ mask_l (map (spec.is_stop (Quoted quote)) v) }
{
    (v.simd_eq(u8x16::splat(quote))
        | v.simd_eq(u8x16::splat(b'\\'))
        | v.simd_eq(u8x16::splat(b'\n'))).to_bitmask()
}

/// The lanes at which the run stops, as bits.
#[inline(always)]
fn stops(run: Run, v: u8x16) -> u64
    ensures { result ≡ mask_l (map (spec.is_stop run) v) }
{
    match run {
        Run::Text => text_stops(v),
        Run::Spaces => no_spaces(v),
        Run::Plain => plain_stops(v),
        Run::Quoted(quote) => quoted_stops(quote, v),
    }
}

/// How many of sixteen lanes come before the first one of these bits.
#[inline(always)]
fn first_set(bits: u64) -> usize
    ensures { result ≡ spec.first_set bits }
{
    if bits == 0 {
        16
    } else {
        bits.trailing_zeros() as usize
    }
}

/// How far the run goes in sixteen bytes.
#[inline(always)]
fn lanes_len(run: Run, text: &[u8], at: usize) -> usize
    requires { at + 16 ≤ length text.now }
    ensures { result ≡ prefix_len (spec.run_goes_on run) (chunk at 16 text.now) }
{
    first_set(stops(run, u8x16::from_slice(&text[at..])))
}

/// How long the run in front is, in bytes, tested one by one.
#[inline(always)]
fn each_len(run: Run, text: &[u8]) -> usize
    ensures value { result ≡ prefix_len (spec.run_goes_on run) text.now }
    ensures within { result ≤ length text.now }
{
    let mut n = 0;
    'each: while n < text.len() && !is_stop(run, text[n]) {
        n += 1;
    }
    n
}

/// How long the run in front is, in bytes.
#[inline(always)]
pub fn run_len(run: Run, text: &[u8]) -> usize
    ensures value { result ≡ prefix_len (spec.run_goes_on run) text.now }
    ensures within { result ≤ length text.now }
{
    let mut at = 0;
    'lanes: while text.len() - at >= 16 {
        let len = lanes_len(run, text, at);
        if len < 16 {
            return at + len;
        }
        at += 16;
    }
    at + each_len(run, text.split_at(at).1)
}
