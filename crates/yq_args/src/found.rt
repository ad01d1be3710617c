//! What is in the words of a command line, as far as it can be read.

use crate::command_word::split_command;
use crate::explain_option::asked_code;
use crate::options::{is_known, without_value};

/// How many of the words that are no options are kept.
const KEPT: usize = 3;

/// What is in the words.
#[derive(Clone, Copy)]
pub struct Found<'w> {
    /// The command's name; `eval` where none is written.
    pub command: &'w str,
    /// Whether the first word is the command's name.
    pub is_named: bool,
    /// The code of which alone the words ask.
    pub code: Option<&'w str>,
    /// The first option that the command doesn't have.
    pub unknown: Option<&'w str>,
    /// The first three words that are no options; empty ones where there are fewer.
    pub names: [&'w str; KEPT],
    /// How many words are no options.
    pub count: usize,
    /// The line on an option that takes a value, where no word comes after it, or an option.
    pub lacking: Option<&'static str>,
    /// Whether the first of the words that are no options comes after `--`.
    pub comes_later: bool,
}

/// Whether a word begins with `-`, and is more than that.
fn is_option(word: &str) -> bool {
    word.starts_with('-') && word != "-"
}

/// What is in these words.
pub fn find<'w>(words: &[&'w str]) -> Found<'w> {
    let (command, rest) = split_command(words);
    let mut found = Found {
        command,
        is_named: rest.len() < words.len(),
        code: asked_code(words),
        unknown: None,
        names: [""; KEPT],
        count: 0,
        lacking: None,
        comes_later: false,
    };
    let mut only_names = false;
    let mut before = None;
    'words: for word in rest {
        if before.is_some() {
            if is_option(word) {
                found.lacking = before;
            }
            before = None;
        } else if only_names || !is_option(word) {
            if found.count < KEPT {
                found.names[found.count] = word;
            }
            found.comes_later = found.comes_later || (only_names && found.count == 0);
            found.count = found.count.saturating_add(1);
        } else if *word == "--" {
            only_names = true;
        } else {
            before = without_value(command, word);
            if before.is_none() && found.unknown.is_none() && !is_known(command, word) {
                found.unknown = Some(word);
            }
        }
    }
    if before.is_some() {
        found.lacking = before;
    }
    found
}

/// The first word that is one too many.
pub fn surplus<'w>(found: &Found<'w>) -> Option<&'w str> {
    let most = if matches!(found.command, "eval" | "squash") {
        2
    } else {
        1
    };
    if found.count > most {
        Some(found.names[most])
    } else {
        None
    }
}
