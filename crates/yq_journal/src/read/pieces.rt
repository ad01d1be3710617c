//! The pieces of a text of the written form, each with what comes after it: fixed bytes, numbers, bytes in
//! base64 and strings.
ghost use Rattle.std.{specs.Prelude.{◌≡◌, ◌≤◌, ◌<◌, ◌+◌, ◌^◌, ◌∷◌, ◌++◌, IfOk, IfSome, decimal, length}, specs.String.string_bytes};
ghost use Rattle.json.specs.Print.{quoted};
ghost use Rattle.yq_journal.{specs.ListAnswers.IfFound, specs.Added.{base64_text, AreDecodedAgain}};

use super::fields::decoded;
use crate::quoting::{is_bare, quoted_text};
use memchr::memchr;
use std::alloc::{AllocError, Global};

/// What comes after these bytes, with which a text begins. Where the bytes are fixed, the loop goes into the
/// code as that many comparisons.
#[inline(always)]
pub(super) fn after<'t>(text: &'t [u8], bytes: &[u8]) -> Option<&'t [u8]>
    ensures { IfSome result (λ rest. text.now ≡ bytes.now ++ rest.now) }
{
    if text.len() < bytes.len() {
        return None;
    }
    'bytes: for i in 0..bytes.len() {
        if text[i] != bytes[i] {
            return None;
        }
    }
    Some(&text[bytes.len()..])
}

/// The digit that a byte is in decimal.
fn digit_of(byte: u8) -> Option<u64>
    ensures { IfSome result (λ d. (d < 10) × (byte ≡ 48 + d)) }
{
    if byte < b'0' || byte > b'9' {
        return None;
    }
    Some((byte - b'0') as u64)
}

/// A number in decimal, of fewer than 20 digits and with no zero before them, and what comes after it.
pub(super) fn number(text: &[u8]) -> Option<(u64, &[u8])>
    ensures text { IfSome result (λ p. text.now ≡ decimal p.0 ++ p.1.now) }
    ensures fits { IfSome result (λ p. p.0 < 2 ^ 64) }
{
    if text.len() == 0 {
        return None;
    }
    let mut number = digit_of(text[0])?;
    if number == 0 {
        return Some((0, &text[1..]));
    }
    'digits: for i in 1..text.len() {
        let Some(digit) = digit_of(text[i]) else {
            return Some((number, &text[i..]));
        };
        if number > u64::MAX / 10 - 1 {
            return None;
        }
        number = number * 10 + digit;
    }
    None
}

/// How many bytes come before the first quote.
fn quote_at(bytes: &[u8]) -> usize
    ensures { result ≤ length bytes.now }
{
    match memchr(b'"', bytes) {
        Some(i) => i,
        None => bytes.len(),
    }
}

/// Bytes in base64 up to the next quote, and what comes after them.
pub(super) fn bytes<'t>(
    alloc: Global,
    text: &'t [u8],
) -> Result<Option<(Vec<u8>, &'t [u8])>, AllocError>
    ensures text { IfFound result (λ p. text.now ≡ base64_text p.0.items ++ p.1.now) }
    ensures reads_back { IfFound result (λ p. AreDecodedAgain p.0.items) }
{
    let end = quote_at(text);
    match decoded(alloc, &text[..end])? {
        Some(found) => Ok(Some((found, &text[end..]))),
        None => Ok(None),
    }
}

/// What a short escape means: the byte after the backslash.
fn unescaped(byte: u8) -> Option<u8> {
    match byte {
        b'"' | b'\\' => Some(byte),
        b'b' => Some(8),
        b't' => Some(9),
        b'n' => Some(10),
        b'f' => Some(12),
        b'r' => Some(13),
        _ => None,
    }
}

/// How many bytes come before the first quote or backslash.
fn plain_len(bytes: &[u8]) -> usize
    ensures { result ≤ length bytes.now }
{
    'bytes: for i in 0..bytes.len() {
        let byte = bytes[i];
        if byte == b'"' || byte == b'\\' {
            return i;
        }
    }
    bytes.len()
}

/// The text up to the next quote, with no escapes but short ones.
fn unquoted(alloc: Global, bytes: &[u8]) -> Result<Option<String>, AllocError> {
    let mut found = Vec::new(alloc);
    let mut left = bytes;
    'runs: for _ in 0..bytes.len() {
        let end = plain_len(left);
        found.extend_from_slice(&left[..end])?;
        match &left[end..] {
            [b'"', ..] => return Ok(String::from_utf8(found).ok()),
            [_, byte, more @ ..] => {
                let Some(meant) = unescaped(*byte) else {
                    return Ok(None);
                };
                found.push(meant)?;
                left = more;
            }
            _ => return Ok(None),
        }
    }
    Ok(None)
}

/// A string with no escapes, of which this is what comes after its first quote.
fn bare_string<'t>(alloc: Global, inner: &'t [u8]) -> Result<Option<(String, &'t [u8])>, AllocError>
    ensures { IfOk result (λ o. IfSome o (λ p. 34 ∷ inner.now ≡
        quoted (string_bytes p.0) ++ p.1.now)) }
{
    let end = quote_at(inner);
    let found = &inner[..end];
    let Some(rest) = after(&inner[end..], b"\"") else {
        return Ok(None);
    };
    if !is_bare(found) {
        return Ok(None);
    }
    match String::from_utf8(Vec::from_slice(alloc, found)?) {
        Ok(meant) => Ok(Some((meant, rest))),
        Err(_) => Ok(None),
    }
}

/// A string as JSON writes it, and what comes after it.
pub(super) fn string<'t>(
    alloc: Global,
    text: &'t [u8],
) -> Result<Option<(String, &'t [u8])>, AllocError>
    ensures { IfOk result (λ o. IfSome o (λ p. text.now ≡ quoted (string_bytes p.0) ++ p.1.now)) }
{
    let Some(inner) = after(text, b"\"") else {
        return Ok(None);
    };
    if let Some(found) = bare_string(alloc, inner)? {
        return Ok(Some(found));
    }
    let Some(meant) = unquoted(alloc, inner)? else {
        return Ok(None);
    };
    let written = quoted_text(alloc, &meant)?;
    match after(text, written.as_bytes()) {
        Some(rest) => Ok(Some((meant, rest))),
        None => Ok(None),
    }
}
