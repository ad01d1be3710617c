//! The lines around changes: three are shown before each and three after it, and the others are skipped.
ghost use Rattle.std.specs.Prelude.{◌≡◌, ◌++◌};
ghost use Rattle.yq_core.specs.Text.{text_lines};

use crate::diff::lines::split_lines;
use memchr::{memchr, memrchr};

/// How many lines are shown before a change and after it.
const CONTEXT: usize = 3;

/// How far it is past so many lines, or to the end.
fn past_lines(text: &[u8]) -> usize {
    let mut at = 0usize;
    'lines: for _ in 0..CONTEXT {
        match memchr(b'\n', text.get(at..).unwrap_or(&[])) {
            Some(place) => at = at.wrapping_add(place).wrapping_add(1),
            None => return text.len(),
        }
    }
    at
}

/// How far it is to the last lines, so many of them, or to the first one.
fn last_lines(text: &[u8]) -> usize {
    let mut at = text.len();
    'lines: for _ in 0..CONTEXT {
        match memrchr(b'\n', text.get(..at.wrapping_sub(1)).unwrap_or(&[])) {
            Some(place) => at = place.wrapping_add(1),
            None => return 0,
        }
    }
    at
}

/// The text cut at an offset between two lines; at any other its lines are all in the second part.
fn split_or_none<'a>(text: &'a str, at: usize) -> (&'a str, &'a str)
    ensures { text_lines text.now ≡ text_lines result.0.now ++ text_lines result.1.now }
{
    match split_lines(text, at) {
        Some(cut) => cut,
        None => ("", text),
    }
}

/// The first lines, which are shown after a change, and the lines that follow them.
pub(crate) fn split_context<'a>(text: &'a str) -> (&'a str, &'a str)
    ensures { text_lines text.now ≡ text_lines result.0.now ++ text_lines result.1.now }
{
    split_or_none(text, past_lines(text.as_bytes()))
}

/// The lines before those that are shown before a change, and these.
pub(crate) fn split_skipped<'a>(text: &'a str) -> (&'a str, &'a str)
    ensures { text_lines text.now ≡ text_lines result.0.now ++ text_lines result.1.now }
{
    split_or_none(text, last_lines(text.as_bytes()))
}
