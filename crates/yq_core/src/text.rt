//! What is in front of a text.
ghost use Rattle.std.{specs.List.prefix_len, specs.Prelude.{◌≡◌, ◌==◌, ◌≤◌, length}};
ghost use Rattle.yq_core.{specs.PlainText.begins_marker, specs.Text.cut};
ghost use Rattle.yq_core.specs.Lines as lines_spec;
ghost use Rattle.yq_core.specs.Text as spec;

use crate::runs::{Run, run_len};

/// A space or a tab.
pub fn is_white(b: u8) -> bool
    ensures { result ≡ spec.is_white b }
{
    matches!(b, b' ' | b'\t')
}

/// A break.
pub fn is_break(text: &[u8]) -> bool
    ensures { result ≡ spec.is_break text.now }
{
    matches!(text, [b'\n', ..] | [b'\r', b'\n', ..])
}

/// White space or a break.
pub fn is_space(text: &[u8]) -> bool
    ensures { result ≡ spec.is_space text.now }
{
    matches!(text, [b' ' | b'\t', ..]) || is_break(text)
}

/// A break or the end.
pub fn ends_line(text: &[u8]) -> bool
    ensures { result ≡ spec.ends_line text.now }
{
    text.is_empty() || is_break(text)
}

/// White space, a break or the end.
pub fn separates(text: &[u8]) -> bool
    ensures { result ≡ spec.separates text.now }
{
    text.is_empty() || is_space(text)
}

/// Whether the text begins as a marker does.
pub fn begins_marker(text: &[u8]) -> bool
    ensures { result ≡ begins_marker text.now }
{
    matches!(text, [b'-', b'-', b'-', ..] | [b'.', b'.', b'.', ..])
}

/// `---` or `...`, before white space, a break or the end.
pub fn is_marker(text: &[u8]) -> bool
    ensures { result ≡ spec.is_marker text.now }
{
    if !begins_marker(text) {
        return false;
    }
    separates(text.split_at(3).1)
}

/// How many spaces are in front.
pub fn spaces_len(text: &[u8]) -> usize
    ensures value { result ≡ prefix_len (λ b. b == 32) text.now }
    ensures within { result ≤ length text.now }
{
    run_len(Run::Spaces, text)
}

/// How many spaces and tabs are in front.
pub fn whites_len(text: &[u8]) -> usize
    ensures value { result ≡ prefix_len spec.is_white text.now }
    ensures within { result ≤ length text.now }
{
    let mut n = 0;
    'whites: while n < text.len() && is_white(text[n]) {
        n += 1;
    }
    n
}

/// What follows the white space in front.
#[tactic(auto, using(crate::proofs::Upto::upto_unless))]
pub fn past_white(text: &[u8]) -> &[u8]
    ensures { result.now ≡ spec.past_white text.now }
{
    text.split_at(whites_len(text)).1
}

/// The text cut after the spaces in front.
#[tactic(auto, using(crate::proofs::Upto::upto_unless, crate::proofs::Boundaries::boundary_spaces))]
pub fn split_spaces(text: &str) -> (&str, &str)
    ensures { (result.0.now, result.1.now) ≡ cut spec.no_space text.now }
{
    text.split_at(spaces_len(text.as_bytes()))
}

/// The text cut after the white space in front.
#[tactic(auto, using(crate::proofs::Upto::upto_unless))]
pub fn split_white(text: &str) -> (&str, &str)
    ensures { (result.0.now, result.1.now) ≡ cut spec.no_white text.now }
{
    text.split_at(whites_len(text.as_bytes()))
}

/// What comes after the spaces in front.
pub fn without_spaces(line: &[u8]) -> &[u8]
    ensures { result.now ≡ lines_spec.without_spaces line.now }
{
    line.split_at(spaces_len(line)).1
}

/// A line of white space alone.
pub fn is_blank(line: &[u8]) -> bool
    ensures { result ≡ lines_spec.is_blank line.now }
{
    ends_line(past_white(line))
}
