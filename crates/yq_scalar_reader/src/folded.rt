//! What white space, breaks, escapes and other bytes of plain and quoted scalars mean (YAML 1.2.2, sections 5.7, 6.5 and 7.3).
ghost use Rattle.std.specs.Prelude.{◌≡◌, ◌++◌, ◌<◌, ◌≤◌, [], length, true, false, IfSome};
ghost use Rattle.yq_scalar_reader.specs.Folded.{folded_text};
ghost use Rattle.yq_core.{specs.Plain.no_gap, specs.Text.{upto, cut, is_space}, specs.Quoted.IsQuotedText};
ghost use Rattle.yq_core.specs.ContentReading as spec;
ghost use Rattle.yq_scalar_reader.specs.Folded as folded_spec;

use crate::quoted::escape;
use yq_core::Run;
use yq_core::text::{is_break, is_space};

/// What bytes of a plain or quoted scalar mean.
#[derive(Clone, Copy)]
pub enum Folded<'t> {
    /// That text.
    Text(&'t str),
    /// The character of an escape.
    Char(char),
    /// So many LFs.
    Breaks(usize),
}

/// A run of bytes that mean themselves, two single quotes, or an escape.
#[derive(Clone, Copy)]
pub struct FoldedItem<'t> {
    pub folded: Folded<'t>,
    /// What follows it.
    pub rest: &'t str,
    /// Whether it is an escaped break.
    pub joined: bool,
}

/// How many bytes of white space and breaks are in front.
fn space_len(text: &[u8]) -> usize
    ensures { result ≡ upto no_gap text.now }
{
    let mut n = 0;
    let mut rest = text;
    'each: while let [_, after @ ..] = rest {
        if !is_space(rest) {
            return n;
        }
        n += 1;
        rest = after;
    }
    n
}

/// How many breaks there are among white space and breaks.
fn breaks(text: &[u8]) -> usize
    ensures { result ≡ spec.breaks text.now }
{
    let mut n = 0;
    let mut rest = text;
    'each: while let [first, after @ ..] = rest {
        if *first == b'\n' {
            n += 1;
            rest = after;
        } else {
            rest = after;
        }
    }
    n
}

/// What white space and breaks mean, after an escaped break or not.
pub fn fold_gap<'t>(joined: bool, space: &'t str) -> Folded<'t>
    ensures { folded_text result ≡ spec.space_text joined space.now }
{
    let count = breaks(space.as_bytes());
    if joined {
        return Folded::Breaks(count);
    }
    match count {
        0 => Folded::Text(space),
        1 => Folded::Text(" "),
        _ => Folded::Breaks(count - 1),
    }
}

/// The white space and breaks in front, and what follows them.
pub fn split_space(text: &str) -> (&str, &str)
    ensures { (result.0.now, result.1.now) ≡ cut no_gap text.now }
{
    text.split_at(space_len(text.as_bytes()))
}

/// Whether two quotes are in front, in single quotes.
fn is_pair(quote: u8, text: &[u8]) -> bool
    ensures { result ≡ spec.is_pair quote text.now }
{
    quote == b'\'' && matches!(text, [b'\'', b'\'', ..])
}

/// Whether a backslash is in front, in double quotes.
fn is_slash(quote: u8, text: &[u8]) -> bool
    ensures { result ≡ spec.is_slash quote text.now }
{
    quote == b'"' && matches!(text, [b'\\', ..])
}

fn ends_run(quote: u8, text: &[u8]) -> bool
    ensures { result ≡ spec.ends_run quote text.now }
{
    text.is_empty() || is_space(text) || is_pair(quote, text) || is_slash(quote, text)
}

/// How many bytes in front mean themselves.
fn run_len(quote: u8, text: &[u8]) -> usize
    ensures { result ≡ upto (spec.ends_run quote) text.now }
{
    let mut n = 0;
    let mut rest = text;
    'each: while let [_, after @ ..] = rest {
        if ends_run(quote, rest) {
            return n;
        }
        n += 1;
        rest = after;
    }
    n
}

/// Whether white space or a CR comes before a place.
fn is_blank_before(n: usize, text: &[u8]) -> bool
    requires { n ≤ length text.now }
    ensures value { result ≡ folded_spec.is_blank_before n text.now }
    ensures place { result ≡ true → 0 < n }
{
    n > 0 && matches!(text[n - 1], b' ' | b'\t' | b'\r')
}

/// How many of so many bytes come before the white space at their end.
fn trimmed_len(text: &[u8], len: usize) -> usize
    requires { len ≤ length text.now }
    ensures within { result ≤ len }
    ensures last { folded_spec.is_blank_before result text.now ≡ false }
{
    let mut n = len;
    'each: while is_blank_before(n, text) {
        n -= 1;
    }
    n
}

/// What is in front up to a quote, a backslash or a break, without the white space at its end.
fn split_words(quote: u8, text: &str) -> Option<(&str, &str)>
    ensures value { IfSome result (λ x. spec.content_on quote 0 spec.within [] text.now
        ≡ x.0.now ++ spec.content_on quote 0 spec.within [] x.1.now) }
    ensures shorter { IfSome result (λ x. length x.1.now < length text.now) }
{
    let bytes = text.as_bytes();
    let run = yq_core::run_len(Run::Quoted(quote), bytes);
    let len = trimmed_len(bytes, run);
    if len == 0 {
        return None;
    }
    match text.split_at_checked(len) {
        Some((words, rest)) => Some((words, rest)),
        None => None,
    }
}

/// Bytes in front that mean themselves, and what follows them.
fn split_run(quote: u8, text: &str) -> (&str, &str)
    ensures value { spec.content_on quote 0 spec.within [] text.now
        ≡ result.0.now ++ spec.content_on quote 0 spec.within [] result.1.now }
    ensures within { length result.1.now ≤ length text.now }
    ensures shorter { 0 < length text.now → spec.ends_run quote text.now ≡ false → length result.1.now < length text.now }
{
    match split_words(quote, text) {
        Some(parts) => parts,
        None => text.split_at(run_len(quote, text.as_bytes())),
    }
}

/// How long the break in front is, in bytes.
fn break_len(text: &[u8]) -> usize
    ensures { result ≡ spec.break_len text.now }
{
    match text {
        [] => 0,
        [first, ..] => { if *first == b'\n' { 1 } else { 2 } }
    }
}

/// The escape in front.
#[inline(always)]
pub(crate) fn fold_escape<'t>(text: &'t str) -> FoldedItem<'t>
    requires { spec.is_slash 34 text.now ≡ true }
    ensures value { spec.content_on 34 0 spec.within [] text.now ≡
        folded_text result.folded ++ spec.content_after 34 result.joined result.rest.now }
    ensures shorter { length result.rest.now < length text.now }
{
    let after = text.split_at(1).1;
    if is_break(after.as_bytes()) {
        let rest = after.split_at(break_len(after.as_bytes())).1;
        return FoldedItem {
            folded: Folded::Text(""),
            rest,
            joined: true,
        };
    }
    match escape(after.as_bytes()) {
        None => FoldedItem {
            folded: Folded::Text(""),
            rest: after,
            joined: false,
        },
        Some((c, length)) => {
            let rest = after.split_at(length).1;
            FoldedItem {
                folded: Folded::Char(c),
                rest,
                joined: false,
            }
        }
    }
}

/// The item in front, where no white space or break is.
pub fn fold_item<'t>(quote: u8, text: &'t str) -> FoldedItem<'t>
    requires { is_space text.now ≡ false }
    ensures value { spec.content_on quote 0 spec.within [] text.now ≡
        folded_text result.folded ++ spec.content_after quote result.joined result.rest.now }
    ensures within { length result.rest.now ≤ length text.now }
    ensures shorter { 0 < length text.now → length result.rest.now < length text.now }
{
    if is_slash(quote, text.as_bytes()) {
        return fold_escape(text);
    }
    if is_pair(quote, text.as_bytes()) {
        return FoldedItem {
            folded: Folded::Text("'"),
            rest: text.split_at(2).1,
            joined: false,
        };
    }
    let (run, rest) = split_run(quote, text);
    FoldedItem {
        folded: Folded::Text(run),
        rest,
        joined: false,
    }
}

/// The quote of a quoted scalar, and what is between its quotes.
pub fn inside(piece: &str) -> (u8, &str)
    requires { IsQuotedText piece.now }
    ensures { spec.quoted_text result.0 result.1.now ≡ spec.quoted_content piece.now }
{
    let quote = piece.as_bytes()[0];
    let inner = piece.split_at(1).1;
    (quote, inner.split_at(inner.len() - 1).0)
}
