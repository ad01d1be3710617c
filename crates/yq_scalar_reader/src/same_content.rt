//! Plain and quoted scalars compared with what they may mean, without memory (YAML 1.2.2, sections 5.7, 6.5 and 7.3).
ghost use Rattle.std.{specs.Prelude.{◌≡◌, ◌<◌, length, replicate, IfSome}, specs.Str.bytes_eq};
ghost use Rattle.yq_scalar_reader.specs.Folded.{folded_text, StripsItem, StripsText};
ghost use Rattle.yq_core.{specs.Quoted.IsQuotedText, specs.Text.feed};
ghost use Rattle.yq_core.specs.ContentReading as spec;

use crate::folded::{Folded, fold_gap, fold_item, inside, split_space};

/// A text without the LFs that it begins with, where these are so many at least.
fn strip_breaks(text: &str, count: usize) -> Option<&str>
    ensures { StripsText (replicate count feed) text.now result }
{
    let mut rest = text;
    let mut left = count;
    'each: while left > 0 {
        match rest.strip_prefix('\n') {
            None => return None,
            Some(after) => {
                rest = after;
                left -= 1;
            }
        }
    }
    Some(rest)
}

/// A text without what bytes mean, where it begins with that.
fn strip_folded<'w>(text: &'w str, folded: Folded<'_>) -> Option<&'w str>
    ensures { StripsText (folded_text folded.entry) text.now result }
{
    match folded {
        Folded::Text(front) => text.strip_prefix(front),
        Folded::Char(c) => text.strip_prefix(c),
        Folded::Breaks(count) => strip_breaks(text, count),
    }
}

/// A text without what white space, breaks and the item after them mean, where it begins with
/// that; then what follows these, and whether that is a joined line.
fn strip_next<'w, 't>(
    wanted: &'w str,
    quote: u8,
    joined: bool,
    text: &'t str,
) -> Option<(&'w str, &'t str, bool)>
    ensures same { StripsItem quote joined text.now wanted.now result }
    ensures shorter { IfSome result (λ x. 0 < length text.now → length x.1.now < length text.now) }
{
    let (space, next) = split_space(text);
    let after = strip_folded(wanted, fold_gap(joined, space))?;
    let item = fold_item(quote, next);
    let left = strip_folded(after, item.folded)?;
    Some((left, item.rest, item.joined))
}

/// Whether what is in these quotes, or in none, means that content.
fn folds_to(quote: u8, text: &str, content: &str) -> bool
    ensures { result ≡ bytes_eq (spec.quoted_text quote text.now) content.now }
{
    let mut wanted = content;
    let mut joined = false;
    let mut rest = text;
    'each: while !rest.is_empty() {
        match strip_next(wanted, quote, joined, rest) {
            None => return false,
            Some((left, next, is_joined)) => {
                wanted = left;
                rest = next;
                joined = is_joined;
            }
        }
    }
    wanted.is_empty()
}

/// Whether a plain scalar of that text means that content.
pub fn is_plain_content(text: &str, content: &str) -> bool
    ensures { result ≡ bytes_eq (spec.plain_content text.now) content.now }
{
    folds_to(0, text, content)
}

/// Whether a quoted scalar, given with its quotes, means that content.
pub fn is_quoted_content(piece: &str, content: &str) -> bool
    requires { IsQuotedText piece.now }
    ensures { result ≡ bytes_eq (spec.quoted_content piece.now) content.now }
{
    let (quote, inner) = inside(piece);
    folds_to(quote, inner, content)
}
