//! What is no expression.

use crate::advice::{Advice, BY_SELECT, advise, of_value, rewrite};
use crate::parts::{Parts, first_char, in_two, is_word_char, last_char, parted_at_value};
use crate::updates::{of_comma, of_equals, of_step};
use std::alloc::{AllocError, Global};
use yq_semantics::Expected;

/// The expression with double quotes in the place of single ones.
fn with_double(alloc: Global, expr: &str) -> Result<String, AllocError> {
    let mut text = String::new(alloc);
    'chars: for c in expr.chars() {
        text.push(if c == '\'' { '"' } else { c })?;
    }
    Ok(text)
}

/// About a text in quotes that can't be read.
fn of_quote(alloc: Global, expr: &str, p: Parts<'_>) -> Result<Option<Advice>, AllocError> {
    if p.after.contains('"') {
        return advise(
            alloc,
            "a text ends at its second quote; after '\\' there is one of \", \\, n, t and r",
        );
    }
    rewrite(alloc, "a text ends at its second quote", &[expr, "\""])
}

/// How a key of other characters is written.
const OTHER_KEY: &str = "a key of other characters is written in double quotes";

/// About a dot before what is no name.
fn of_dot(alloc: Global, p: Parts<'_>) -> Result<Option<Advice>, AllocError> {
    let key = parted_at_value(p.after, 0);
    match first_char(p.after) {
        Some(c) if c.is_ascii_digit() => {
            let (number, rest) = match key.token.split_once('.') {
                Some((number, _)) => in_two(p.after, number.len()),
                None => (key.token, key.after),
            };
            let parts = [p.before, "[", number, "]", rest];
            rewrite(alloc, "an item is named by its number in brackets", &parts)
        }
        Some(_) if !key.token.is_empty() => {
            let parts = [p.before, ".\"", key.token, "\"", key.after];
            rewrite(alloc, OTHER_KEY, &parts)
        }
        _ => Ok(None),
    }
}

/// About a place at which no token begins.
fn of_unread(
    alloc: Global,
    expr: &str,
    at: usize,
    p: Parts<'_>,
) -> Result<Option<Advice>, AllocError> {
    match p.token.chars().next() {
        None => rewrite(alloc, "the path of the whole document is a dot", &["."]),
        Some('"') => of_quote(alloc, expr, p),
        Some('\'') => Ok(Some(Advice {
            what: "a text is written in double quotes",
            instead: with_double(alloc, expr)?,
        })),
        Some('.') => of_dot(alloc, p),
        _ if p.before.ends_with('.') => {
            let key = parted_at_value(expr, at);
            let path = key.before.len().saturating_add(1);
            let word = key.token.split_once('.').unwrap_or(("", key.token)).1;
            let parts = [in_two(expr, path).0, "\"", word, "\"", key.after];
            rewrite(alloc, OTHER_KEY, &parts)
        }
        _ => Ok(None),
    }
}

/// About a token after an opening bracket, or where a key, value or comparison is missing.
fn of_bracket(
    alloc: Global,
    p: Parts<'_>,
    expected: Expected,
) -> Result<Option<Advice>, AllocError> {
    match (p.token.chars().next(), expected) {
        (Some(':'), Expected::Mark(']')) => advise(
            alloc,
            "each item is named by its own number: there are no ranges",
        ),
        (Some('}' | ']'), Expected::Key | Expected::Value) => {
            let before = p.before.trim_end();
            let parts = [before.strip_suffix(',').unwrap_or(before), p.token, p.after];
            rewrite(alloc, "no comma comes before a closing bracket", &parts)
        }
        (Some(')'), Expected::Comparison) => {
            let parts = [p.before, " == true", p.token, p.after];
            rewrite(alloc, "a condition compares a value", &parts)
        }
        (_, Expected::Step) => advise(alloc, BY_SELECT),
        _ => Ok(None),
    }
}

/// Whether a step goes on after its dot.
fn is_step_begun(after: &str) -> bool {
    after.starts_with(|c: char| is_word_char(c) || matches!(c, '"' | '['))
}

/// About a dot at which a path or value was cut.
fn of_late_dot(
    alloc: Global,
    expr: &str,
    at: usize,
    p: Parts<'_>,
    expected: Expected,
) -> Result<Option<Advice>, AllocError> {
    if matches!(last_char(p.before), Some(')')) {
        return of_step(alloc, p);
    }
    if first_char(parted_at_value(expr, at).token) != Some('.') {
        return of_value(alloc, expr, at);
    }
    if matches!(first_char(p.after), Some('0'..='9')) {
        return of_dot(alloc, p);
    }
    if !is_step_begun(p.after) {
        let parts = [p.before, p.after];
        return rewrite(alloc, "a path doesn't end in a dot", &parts);
    }
    if expected == Expected::End {
        let parts = [p.before.trim_end(), " | ", p.token, p.after];
        return rewrite(alloc, "'|' comes between two updates", &parts);
    }
    of_bracket(alloc, p, expected)
}

/// About what is no expression; `expected` is what the parser expected there.
pub fn of_misread(
    alloc: Global,
    expr: &str,
    at: usize,
    p: Parts<'_>,
    expected: Expected,
) -> Result<Option<Advice>, AllocError> {
    if expected == Expected::Unknown || expr.trim().is_empty() {
        return of_unread(alloc, expr, at, p);
    }
    match p.token.chars().next() {
        Some(_) if expected == Expected::Mark('(') => {
            let parts = [p.before.trim_end(), "(", p.token, p.after.trim_end(), ")"];
            rewrite(alloc, "parentheses come after it", &parts)
        }
        Some('=' | '!' | '|' | '+') => of_equals(alloc, p, expected),
        Some(':') if expected == Expected::Operator => {
            let value = p.after.strip_prefix('=').unwrap_or(p.after);
            let parts = [p.before.trim_end(), " =", value];
            rewrite(alloc, "a value is set by '='", &parts)
        }
        Some(',') => of_comma(alloc, p),
        Some('[') if expected == Expected::Path && first_char(p.after) == Some('.') => {
            let what = "values aren't put into a list: a path with '[]' prints each of them";
            advise(alloc, what)
        }
        Some('[') if expected == Expected::Path => {
            let parts = [p.before, ".", p.token, p.after];
            rewrite(alloc, "a path begins with a dot", &parts)
        }
        Some('[') if matches!(last_char(p.before), Some(')')) => of_step(alloc, p),
        Some('.') => of_late_dot(alloc, expr, at, p, expected),
        _ => of_bracket(alloc, p, expected),
    }
}
