//! Updates whose places or parts are not written as they are here.

use crate::advice::{Advice, advise, rewrite};
use crate::parts::Parts;
use std::alloc::{AllocError, Global};
use yq_semantics::Expected;

/// How selected places are updated.
const IN_PARENTHESES: &str = "selected places are written in parentheses";

/// About a comparison that is in no 'select'.
fn of_comparison(alloc: Global, p: Parts<'_>) -> Result<Option<Advice>, AllocError> {
    let (front, bar, path) = match p.before.rsplit_once('|') {
        Some((front, path)) => (front, "| ", path),
        None => ("", "", p.before),
    };
    let (value, bar_after, rest) = match p.after.split_once('|') {
        Some((value, rest)) => (value, " |", rest),
        None => (p.after, "", ""),
    };
    let (left, right) = (path.trim_start(), value.trim_end());
    let open = "select(";
    let parts = [front, bar, open, left, p.token, right, ")", bar_after, rest];
    let what = "values are compared in 'select' alone, and set by '='";
    rewrite(alloc, what, &parts)
}

/// About an operator, where a comparison or nothing was expected.
pub fn of_equals(
    alloc: Global,
    p: Parts<'_>,
    expected: Expected,
) -> Result<Option<Advice>, AllocError> {
    let before = p.before.trim_end();
    if before.ends_with("==") {
        return rewrite(alloc, "values are compared by '=='", &[before, p.after]);
    }
    if matches!(p.token, "==" | "!") && expected != Expected::Comparison {
        return of_comparison(alloc, p);
    }
    match expected {
        Expected::Comparison => rewrite(
            alloc,
            "values are compared by '=='",
            &[p.before, "==", p.after],
        ),
        Expected::End if before.contains('|') => {
            let parts = ["(", before, ") ", p.token, p.after];
            rewrite(alloc, IN_PARENTHESES, &parts)
        }
        _ => Ok(None),
    }
}

/// About a comma.
pub fn of_comma(alloc: Global, p: Parts<'_>) -> Result<Option<Advice>, AllocError> {
    let before = p.before.trim_end();
    if before.starts_with("del(") {
        let parts = [before, ") | del(", p.after.trim_start()];
        return rewrite(alloc, "one 'del' for each place", &parts);
    }
    if before.contains('=') {
        let parts = [before, " |", p.after];
        return rewrite(alloc, "'|' comes between two updates", &parts);
    }
    advise(alloc, "one path in each run: there is no ','")
}

/// About steps after a closing parenthesis.
pub fn of_step(alloc: Global, p: Parts<'_>) -> Result<Option<Advice>, AllocError> {
    let before = p.before.trim_end();
    let inner = match before.strip_prefix('(') {
        Some(inner) => inner.strip_suffix(')').unwrap_or(inner),
        None => before,
    };
    let (steps, rest) = match p.after.split_once(' ') {
        Some((steps, rest)) => (steps, rest),
        None => (p.after, ""),
    };
    if rest.contains('=') {
        let parts = ["(", inner, " | ", p.token, steps, ") ", rest];
        return rewrite(alloc, IN_PARENTHESES, &parts);
    }
    let parts = [inner, " | ", p.token, steps, " ", rest];
    rewrite(alloc, "steps come after '|'", &parts)
}
