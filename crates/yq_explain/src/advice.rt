//! What can be done about an expression that is refused.

use crate::first_words::of_first;
use crate::marks::of_mark;
use crate::misread::of_misread;
use crate::parts::{Parts, first_char, is_word_char, last_char, parted, parted_at_value};
use std::alloc::{AllocError, Global};
use yq_semantics::ParseFault;

/// What can be done, and the expression as it may have been meant; that is empty where it isn't known.
#[derive(Drop)]
pub struct Advice {
    pub what: &'static str,
    pub instead: String,
}

/// Advice without an expression.
pub fn advise(alloc: Global, what: &'static str) -> Result<Option<Advice>, AllocError> {
    Ok(Some(Advice {
        what,
        instead: String::new(alloc),
    }))
}

/// Advice with the expression that these parts make.
pub fn rewrite(
    alloc: Global,
    what: &'static str,
    parts: &[&str],
) -> Result<Option<Advice>, AllocError> {
    let mut instead = String::new(alloc);
    'parts: for part in parts {
        instead.push_str(part)?;
    }
    Ok(Some(Advice { what, instead }))
}

/// How a value from the shell is had.
pub const FROM_SHELL: &str =
    "a text from the shell is set by --text=\"$TEXT\", with the path as EXPR";

/// How items are selected.
pub const BY_SELECT: &str = "items are selected so: (PATH[] | select(.KEY == \"TEXT\") | .OTHER)";

/// About a value without its quotes.
pub fn of_value(alloc: Global, expr: &str, at: usize) -> Result<Option<Advice>, AllocError> {
    let p = parted_at_value(expr, at);
    let own = match p.token {
        "True" | "TRUE" => "true",
        "False" | "FALSE" => "false",
        "Null" | "NULL" | "nil" | "None" => "null",
        _ => "",
    };
    if !own.is_empty() {
        let parts = [p.before, own, p.after];
        return rewrite(alloc, "true, false and null are written so", &parts);
    }
    let parts = [p.before, "\"", p.token, "\"", p.after];
    rewrite(alloc, "a text is written in double quotes", &parts)
}

/// Whether a bracket that is open before the token is one of a path.
fn is_in_path(before: &str) -> bool {
    match before.trim_end().strip_suffix('[') {
        Some(path) => match path.chars().last() {
            Some(c) => is_word_char(c) || matches!(c, ']' | '"' | '.'),
            None => false,
        },
        None => false,
    }
}

/// About a word that only other expressions have, or none has.
fn of_word(
    alloc: Global,
    expr: &str,
    at: usize,
    p: Parts<'_>,
) -> Result<Option<Advice>, AllocError> {
    match p.token {
        "env" | "strenv" | "envsubst" => return advise(alloc, FROM_SHELL),
        "as" if first_char(p.after) == Some('$') => {
            let what = "there are no variables: a path is written where its value is wanted";
            return advise(alloc, what);
        }
        "and" => {
            let parts = [p.before.trim_end(), ") | select(", p.after.trim_start()];
            return rewrite(alloc, "one 'select' for each condition", &parts);
        }
        "or" => return advise(alloc, "one run for each condition: there is no 'or'"),
        _ => {}
    }
    match last_char(p.before) {
        None | Some('(') | Some('|') => of_first(alloc, p),
        Some('.') => {
            let parts = [p.before.trim_end(), p.token, p.after];
            rewrite(alloc, "no space comes after a dot", &parts)
        }
        Some('[') if is_in_path(p.before) => advise(alloc, BY_SELECT),
        Some('{') | Some(',') if first_char(p.after) == Some(':') => {
            let parts = [p.before, "\"", p.token, "\"", p.after];
            rewrite(alloc, "a key is written in double quotes", &parts)
        }
        _ => of_value(alloc, expr, at),
    }
}

/// What can be done about an expression in which a fault was found, if that is known.
pub fn advice_on(
    alloc: Global,
    expr: &str,
    fault: ParseFault,
) -> Result<Option<Advice>, AllocError> {
    let at = fault.at(expr);
    let p = parted(expr, at);
    match fault {
        ParseFault::Syntax { expected, .. } => of_misread(alloc, expr, at, p, expected),
        ParseFault::NotInProfile { .. } => match p.token.chars().next() {
            Some(c) if is_word_char(c) => of_word(alloc, expr, at, p),
            _ => of_mark(alloc, p),
        },
        ParseFault::Pattern { .. } => advise(
            alloc,
            "there are no patterns: a key or text with '*' or '?' isn't compared with others",
        ),
    }
}
