//! Marks that only other expressions have.

use crate::advice::{Advice, FROM_SHELL, advise, rewrite};
use crate::parts::{Parts, parted_at_value};
use std::alloc::{AllocError, Global};

/// Keys below which others often have a dot and a slash.
const HOLDERS: [&str; 4] = [
    ".labels.",
    ".annotations.",
    ".matchLabels.",
    ".nodeSelector.",
];

/// How a key with other characters is written.
const QUOTED_KEY: &str = "a key with a slash or a dot in it is written in double quotes";

/// About a slash in a key.
fn of_slash(alloc: Global, p: Parts<'_>) -> Result<Option<Advice>, AllocError> {
    'holders: for holder in &HOLDERS {
        if let Some((front, key)) = p.before.rsplit_once(*holder) {
            let rest = parted_at_value(p.after, 0);
            let parts = [front, *holder, "\"", key, "/", rest.token, "\"", rest.after];
            return rewrite(alloc, QUOTED_KEY, &parts);
        }
    }
    advise(
        alloc,
        "a key with a slash or a dot in it is written so: .labels.\"app.io/name\"",
    )
}

/// About what parts two updates in other languages.
fn of_parting(alloc: Global, p: Parts<'_>) -> Result<Option<Advice>, AllocError> {
    if p.after.trim().is_empty() {
        return rewrite(alloc, "nothing comes after an update", &[p.before]);
    }
    let parts = [p.before.trim_end(), " |", p.after];
    rewrite(alloc, "'|' comes between two updates", &parts)
}

/// About a mark that only other expressions have.
pub fn of_mark(alloc: Global, p: Parts<'_>) -> Result<Option<Advice>, AllocError> {
    match p.token {
        "$" => advise(alloc, FROM_SHELL),
        "//" => advise(
            alloc,
            "there is no default for what is missing; with -e the status says whether it is there",
        ),
        ".." => advise(alloc, "each step of a path is named: there is no '..'"),
        "/" => of_slash(alloc, p),
        "<" | ">" => advise(alloc, "values are compared by '==' and '!=' alone"),
        "?" => {
            let what = "what is missing is null, and no fault, without '?'";
            rewrite(alloc, what, &[p.before, p.after])
        }
        ";" | "&" | "&&" => of_parting(alloc, p),
        "'" => advise(alloc, "a text is written in double quotes"),
        _ => advise(
            alloc,
            "of operators there are '=', '|=', '+=', '+' and '|', and '==' and '!=' in 'select'",
        ),
    }
}
