//! Lines and their breaks.
ghost use Rattle.std.specs.Prelude.{◌≡◌, ◌<◌, ◌≤◌, length};
ghost use Rattle.yq_core.specs.Text.{at_feed, cut, upto};
ghost use Rattle.yq_core.specs.Text as spec;

use crate::text::is_break;
use memchr::memchr;

/// How far it is to the next LF, or to the end.
#[tactic(auto, using(crate::proofs::Breaks::first_feed, crate::proofs::Upto::upto_le_length))]
fn feed_at(text: &[u8]) -> usize
    ensures value { result ≡ upto at_feed text.now }
    ensures within { result ≤ length text.now }
{
    memchr(b'\n', text).unwrap_or(text.len())
}

/// How long the line in front is with its break, in bytes.
#[tactic(auto, using(crate::proofs::Breaks::line_len_here, crate::proofs::Breaks::line_len_last))]
pub fn line_len(text: &[u8]) -> usize
    ensures value { result ≡ spec.line_len text.now }
    ensures within { result ≤ length text.now }
    ensures some { 0 < length text.now → 0 < result }
{
    let end = feed_at(text);
    if end < text.len() { end + 1 } else { end }
}

/// Whether this is one line, and ends in a break.
#[tactic(auto, using(crate::proofs::Breaks::is_line_here, crate::proofs::Breaks::is_line_last))]
pub fn is_line(line: &[u8]) -> bool
    ensures { result ≡ spec.is_line line.now }
{
    let end = feed_at(line);
    end < line.len() && end + 1 == line.len()
}

/// The text cut after the line in front and its break.
pub fn split_line(text: &str) -> (&str, &str)
    ensures { (result.0.now, result.1.now) ≡ spec.cut_line text.now }
{
    text.split_at(line_len(text.as_bytes()))
}

/// How far it is to the next break, or to the end, in bytes.
pub fn text_len(text: &[u8]) -> usize
    ensures { result ≡ upto spec.ends_line text.now }
{
    let mut n = 0;
    let mut rest = text;
    'each: while let [_, after @ ..] = rest {
        if is_break(rest) {
            return n;
        }
        n += 1;
        rest = after;
    }
    n
}

/// The text cut at the next break.
pub fn split_at_break(text: &str) -> (&str, &str)
    ensures { (result.0.now, result.1.now) ≡ cut spec.ends_line text.now }
{
    text.split_at(text_len(text.as_bytes()))
}
