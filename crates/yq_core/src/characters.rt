//! The characters of a text.
ghost use Rattle.std.{specs.List.{list_all, list_any}, specs.Prelude.{◌≡◌, ◌==◌, ◌≤◌, length, true}, specs.Str.chars};
ghost use Rattle.yq_core.specs.Text.{front, is_feed, unless};
ghost use Rattle.yq_core.specs.Characters as spec;

use crate::ascii::ascii_len;
use crate::runs::{Run, run_len};
use memchr::memchr;

/// Whether a text may hold the character: it is printable, and not U+FEFF.
pub fn is_text_char(c: char) -> bool
    ensures { result ≡ spec.is_text_char c }
{
    matches!(
        c,
        '\t' | '\n' | '\r' | ' '..='~' | '\u{85}' | '\u{a0}'..='\u{d7ff}' | '\u{e000}'..='\u{fffd}' | '\u{10000}'..='\u{10ffff}'
    ) && c != '\u{feff}'
}

/// Whether the byte after 194 ends U+0085, or one of U+00A0 to U+00BF.
fn ends_latin_char(rest: &[u8]) -> bool
    ensures { result ≡ spec.ends_latin_char rest.now }
{
    matches!(rest, [133 | 160..=255, ..])
}

/// Whether the bytes after 239 end U+FEFF, the byte order mark.
fn ends_byte_order_mark(rest: &[u8]) -> bool
    ensures { result ≡ spec.ends_byte_order_mark rest.now }
{
    matches!(rest, [187, 191, ..])
}

/// Whether the bytes after 239 end U+FFFE or U+FFFF.
fn ends_noncharacter(rest: &[u8]) -> bool
    ensures { result ≡ spec.ends_noncharacter rest.now }
{
    matches!(rest, [191, 190..=255, ..])
}

/// Whether a character that a text may hold begins with a byte that begins others too.
fn begins_text_char(text: &[u8]) -> bool
    ensures { result ≡ spec.begins_text_char text.now }
{
    match text {
        [] => false,
        [194, rest @ ..] => ends_latin_char(rest),
        [239, rest @ ..] => !ends_byte_order_mark(rest) && !ends_noncharacter(rest),
        [_, ..] => false,
    }
}

/// What follows the bytes that are in characters of a text alone.
fn past_text_bytes(text: &[u8]) -> &[u8]
    ensures same { spec.are_in_text result.now ≡ spec.are_in_text text.now }
    ensures stops { unless spec.is_text_byte result.now ≡ true }
    ensures within { length result.now ≤ length text.now }
{
    text.split_at(run_len(Run::Text, text)).1
}

/// Whether each byte of UTF-8 is in a character that a text may hold.
fn has_text_bytes(text: &[u8]) -> bool
    ensures { result ≡ spec.are_in_text text.now }
{
    let mut rest = past_text_bytes(text);
    'stops: while let [_, after @ ..] = rest {
        if !begins_text_char(rest) {
            return false;
        }
        rest = past_text_bytes(after);
    }
    true
}

/// Whether a text may hold each character.
#[tactic(auto, using(crate::proofs::TextChars::text_bytes))]
pub fn has_text_chars(text: &str) -> bool
    ensures { result ≡ list_all spec.is_text_char (chars text.now) }
{
    has_text_bytes(text.as_bytes())
}

/// Whether an LF is in front.
fn begins_feed(text: &[u8]) -> bool
    ensures { result ≡ front is_feed text.now }
{
    matches!(text, [b'\n', ..])
}

/// Whether an LF follows each CR.
#[tactic(auto, using(crate::proofs::TextChars::pairs_none))]
pub fn pairs_returns(text: &[u8]) -> bool
    ensures { result ≡ spec.pairs_returns text.now }
{
    let mut rest = text;
    'each: while let Some(place) = memchr(b'\r', rest) {
        let after = rest.split_at(place + 1).1;
        if !begins_feed(after) {
            return false;
        }
        rest = after;
    }
    true
}

/// Whether a byte is in a text.
pub fn holds_byte(b: u8, text: &[u8]) -> bool
    ensures { result ≡ list_any (λ x. x == b) text.now }
{
    if text.len() < 64 {
        return text.iter().any(|x| *x == b);
    }
    match memchr(b, text) {
        Some(_) => true,
        None => false,
    }
}

/// What follows the visible characters of ASCII, spaces and LFs in front that fill whole blocks.
fn past_ascii(text: &[u8]) -> &[u8]
    ensures chars { spec.are_in_text result.now ≡ spec.are_in_text text.now }
    ensures returns { spec.pairs_returns result.now ≡ spec.pairs_returns text.now }
{
    text.split_at(ascii_len(text)).1
}

/// Whether the characters are those of a text.
#[tactic(auto, using(crate::proofs::TextChars::text_bytes))]
pub fn is_text(text: &str) -> bool
    ensures { result ≡ spec.is_text text.now }
{
    let rest = past_ascii(text.as_bytes());
    has_text_bytes(rest) && pairs_returns(rest)
}

/// How many characters a text has.
#[tactic(auto, using(std::proofs::lemmas::Str::chars_from_encodes))]
pub fn char_count(text: &str) -> usize
    ensures { result ≡ length (chars text.now) }
{
    text.chars().count()
}
