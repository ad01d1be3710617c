//! The content of strings.
ghost use Rattle.std.specs.List.{prefix_len};
ghost use Rattle.std.specs.Prelude.{◌≡◌, ◌-◌, ◌<◌, ◌≤◌, [], ◌∷◌, length, drop, option_map, slice_index, string_bytes, IfSome, IfOk};
ghost use Rattle.yq_core.specs.Text.{unless, cut};
ghost use Rattle.yq_expr_parser.specs.FormAnswers.{FindsBoth};
ghost use Rattle.yq_expr_parser.specs.Lexing as spec;
ghost use Rattle.yq_semantics.specs.Tokens as grammar;

use std::alloc::{AllocError, Global};

/// What follows the first `n` bytes, of which the last is ASCII.
pub(super) fn skip(text: &str, n: usize) -> &str
    requires some { 0 < n }
    requires within { n ≤ length text.now }
    requires ascii { slice_index text.now (n - 1) < 128 }
    ensures rest { result.now ≡ drop n text.now }
    ensures shorter { length result.now < length text.now }
{
    &text[n..]
}

/// What follows the character, if it is in front.
pub(super) fn past_quote(text: &str) -> &str
    ensures { result.now ≡ spec.after_character 34 text.now }
{
    match text.as_bytes() {
        [b'"', ..] => skip(text, 1),
        _ => text,
    }
}

pub(super) fn past_dot(text: &str) -> &str
    ensures { result.now ≡ spec.after_character 46 text.now }
{
    match text.as_bytes() {
        [b'.', ..] => skip(text, 1),
        _ => text,
    }
}

fn is_plain(b: u8) -> bool
    ensures { result ≡ spec.is_plain_byte b }
{
    b != b'"' && b != b'\\'
}

fn plain_len(text: &[u8]) -> usize
    ensures value { result ≡ prefix_len spec.is_plain_byte text.now }
    ensures within { result ≤ length text.now }
{
    let mut n = 0;
    'plain: while n < text.len() && is_plain(text[n]) {
        n += 1;
    }
    n
}

/// The text cut before the first quote or backslash.
#[tactic(auto, using(crate::proofs::Content::boundary_plain, yq_core::proofs::Upto::upto_unless))]
fn split_plain(text: &str) -> (&str, &str)
    ensures { (result.0.now, result.1.now) ≡ cut (unless spec.is_plain_byte) text.now }
{
    text.split_at(plain_len(text.as_bytes()))
}

fn escape(b: u8) -> Option<&'static str>
    ensures { option_map (λ s. s.now) result ≡
        option_map (λ c. c ∷ []) (grammar.escaped_character b) }
{
    match b {
        b'"' => Some("\""),
        b'\\' => Some("\\"),
        b'n' => Some("\n"),
        b't' => Some("\t"),
        b'r' => Some("\r"),
        _ => None,
    }
}

/// The character that an escape in front means, and what follows it.
fn split_escape(text: &str) -> Option<(&'static str, &str)>
    ensures value { FindsBoth result (spec.escape_front text.now) }
    ensures shorter { IfSome result (λ x. length x.1.now < length text.now) }
{
    match text.as_bytes() {
        [b'\\', b, ..] => match escape(*b) {
            Some(character) => Some((character, skip(text, 2))),
            None => None,
        },
        _ => None,
    }
}

/// The content of a string, from after its opening quote.
pub(super) fn content(alloc: Global, text: &str) -> Result<String, AllocError>
    ensures { IfOk result (λ s. string_bytes s ≡ spec.string_content text.now) }
{
    let mut out = String::new(alloc);
    let mut rest = text;
    'runs: loop {
        let (run, end) = split_plain(rest);
        out.push_str(run)?;
        match split_escape(end) {
            Some((character, after)) => {
                out.push_str(character)?;
                rest = after;
            }
            None => return Ok(out),
        }
    }
}
