//! Words where a path may begin.

use crate::advice::{Advice, advise, rewrite};
use crate::parts::{Parts, first_char};
use std::alloc::{AllocError, Global};
use yq_args::is_command_word;

/// Functions that other programs have, and that are often written.
const FUNCTIONS: [&str; 44] = [
    "add",
    "all",
    "any",
    "ascii_downcase",
    "contains",
    "downcase",
    "empty",
    "explode",
    "first",
    "flatten",
    "from_entries",
    "group_by",
    "if",
    "join",
    "key",
    "keys",
    "last",
    "length",
    "load",
    "map",
    "map_values",
    "match",
    "max",
    "min",
    "not",
    "path",
    "pick",
    "recurse",
    "reduce",
    "reverse",
    "sort",
    "sort_by",
    "sort_keys",
    "split",
    "sub",
    "tag",
    "test",
    "to_entries",
    "tonumber",
    "tostring",
    "type",
    "unique",
    "upcase",
    "with_entries",
];

/// Whether the word is a function of other programs.
fn is_function(word: &str) -> bool {
    FUNCTIONS.iter().any(|name| *name == word)
}

/// Whether these are the ends of names of files.
fn is_file_end(text: &str) -> bool {
    text.ends_with(".yaml") || text.ends_with(".yml") || text.ends_with(".json")
}

/// About a word where a path may begin.
pub fn of_first(alloc: Global, p: Parts<'_>) -> Result<Option<Advice>, AllocError> {
    let next = first_char(p.after);
    match p.token {
        "delete" | "remove" | "rm" if next == Some('(') => {
            return rewrite(
                alloc,
                "an item or entry is deleted by 'del'",
                &[p.before, "del", p.after],
            );
        }
        "documentIndex" => {
            let what = "the number of a document, from 0, is 'di'";
            return rewrite(alloc, what, &[p.before, "di", p.after]);
        }
        _ => {}
    }
    if p.before.is_empty() && is_file_end(p.after) {
        return advise(alloc, "EXPR comes first, and FILE after it");
    }
    if p.before.is_empty() && p.after.is_empty() && is_command_word(p.token) {
        let what = "the name of a command comes first, before options and '--'";
        return advise(alloc, what);
    }
    if p.before.is_empty() && p.after.trim().is_empty() {
        let what = "no command has this name: --help lists them; as a path it begins with a dot";
        return rewrite(alloc, what, &[".", p.token]);
    }
    if is_function(p.token) && !matches!(next, Some('.') | Some('=') | Some('[')) {
        return advise(
            alloc,
            "there is no such function: of functions there are 'select', 'has' and 'del'",
        );
    }
    let parts = [p.before, ".", p.token, p.after];
    rewrite(alloc, "a path begins with a dot", &parts)
}
