//! What plain and quoted scalars mean (YAML 1.2.2, sections 5.7, 6.5 and 7.3).
ghost use Rattle.std.{specs.List.prefix_len, specs.Prelude.{◌≡◌, ◌==◌, ◌++◌, ◌<◌, ◌≤◌, ℕ, List, length, IfOk, string_bytes}};
ghost use Rattle.yq_scalar_reader.specs.Folded.{folded_text};
ghost use Rattle.yq_core.{specs.PlainContent.IsPlainLines, specs.Quoted.{QuotedLines, IsQuoted, IsQuotedText, quoted_lines_content}};
ghost use Rattle.yq_core.{specs.Runs.run_goes_on, specs.declared.runs.Run.TheVariants.Quoted, specs.Strings.{AddsText, GivesText}};
ghost use Rattle.yq_core.specs.ContentReading as spec;

use crate::escaping::split_escape;
use crate::folded::{Folded, fold_gap, fold_item, inside, split_space};
use crate::pushing::push_breaks;
use std::alloc::{AllocError, Global};
use yq_core::{Run, run_len};

/// Adds what bytes mean.
#[inline(always)]
fn push_folded(out: &mut String, folded: Folded<'_>) -> Result<(), AllocError>
    ensures { AddsText result out.old out.new (folded_text folded.entry) }
{
    match folded {
        Folded::Text(text) => out.push_str(text),
        Folded::Char(c) => out.push(c),
        Folded::Breaks(count) => push_breaks(out, count),
    }
}

/// Adds what white space and breaks mean, after an escaped break or not.
fn push_gap(out: &mut String, joined: bool, space: &str) -> Result<(), AllocError>
    ensures { AddsText result out.old out.new (spec.space_text joined space.now) }
{
    if !joined && space.is_empty() {
        return Ok(());
    }
    push_folded(out, fold_gap(joined, space))
}

/// Adds what white space, breaks and the item after them mean, and gives what follows, and
/// whether that is a joined line.
fn push_next<'a>(
    out: &mut String,
    quote: u8,
    joined: bool,
    text: &'a str,
) -> Result<(&'a str, bool), AllocError>
    ensures value { IfOk result (λ x. string_bytes out.new ++ spec.content_after quote x.1 x.0.now
        ≡ string_bytes out.old ++ spec.content_after quote joined text.now) }
    ensures shorter { IfOk result (λ x. 0 < length text.now → length x.0.now < length text.now) }
{
    if quote == b'"' && !joined {
        if let Some((words, item)) = split_escape(text) {
            out.push_str(words)?;
            push_folded(out, item.folded)?;
            return Ok((item.rest, item.joined));
        }
    }
    let (space, next) = split_space(text);
    push_gap(out, joined, space)?;
    let item = fold_item(quote, next);
    push_folded(out, item.folded)?;
    Ok((item.rest, item.joined))
}

/// How many bytes what is in these quotes, or in none, may mean: in double quotes an escape of
/// two bytes means three at most.
fn content_room(quote: u8, len: usize) -> usize
    ensures { len ≤ result }
{
    if quote == b'"' {
        len.saturating_add(len / 2)
    } else {
        len
    }
}

/// Whether each byte of what is in these quotes, or in none, means itself: none is its quote, a
/// backslash or an LF.
fn means_itself(quote: u8, text: &[u8]) -> bool
    ensures { result ≡ (prefix_len (run_goes_on (Quoted quote)) text.now == length text.now) }
{
    run_len(Run::Quoted(quote), text) == text.len()
}

/// The content of what is in these quotes, or in none.
fn fold(alloc: Global, quote: u8, text: &str) -> Result<String, AllocError>
    ensures { GivesText result (spec.quoted_text quote text.now) }
{
    if means_itself(quote, text.as_bytes()) {
        return Ok(String::from_str(alloc, text)?);
    }
    let mut out = String::with_capacity(alloc, content_room(quote, text.len()))?;
    let mut joined = false;
    let mut rest = text;
    'each: while !rest.is_empty() {
        let (next, is_joined) = push_next(&mut out, quote, joined, rest)?;
        rest = next;
        joined = is_joined;
    }
    Ok(out)
}

/// What a plain scalar of that text means: its lines, folded.
pub fn plain_content(alloc: Global, text: &str) -> Result<String, AllocError>
    ensures exact { GivesText result (spec.plain_content text.now) }
    ensures found { (ls : QuotedLines) → IsPlainLines ls text.now →
        GivesText result (quoted_lines_content ls) }
{
    fold(alloc, 0, text)
}

/// What a quoted scalar, given with its quotes, means: its escapes and lines, folded.
pub fn quoted_content(alloc: Global, piece: &str) -> Result<String, AllocError>
    requires { IsQuotedText piece.now }
    ensures exact { GivesText result (spec.quoted_content piece.now) }
    ensures found { (quote : ℕ) (ls : QuotedLines) (rest : List ℕ) →
        IsQuoted quote ls piece.now rest → GivesText result (quoted_lines_content ls) }
{
    let (quote, inner) = inside(piece);
    fold(alloc, quote, inner)
}
