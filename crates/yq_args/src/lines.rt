//! Why words are no command, in lines for the person that wrote them.

use crate::cause::UsageCause;
use crate::command_word::is_command_word;
use crate::found::{Found, find, surplus};
use crate::named::push_named;
use crate::options::hint;
use crate::spelling::end_of_command;
use std::alloc::{AllocError, Global};

/// How many characters of a word are shown.
const MAX_CHARS: usize = 80;

/// A line. In what is before and after its word, `%` means the program.
#[derive(Clone, Copy)]
struct UsageLine<'w> {
    before: &'static str,
    /// The word that it is about, if it is about one.
    word: Option<&'w str>,
    after: &'static str,
}

/// A line about no word.
fn wordless(line: &'static str) -> UsageLine<'static> {
    UsageLine {
        before: line,
        word: None,
        after: "",
    }
}

/// A line about a word.
fn about<'w>(before: &'static str, word: &'w str, after: &'static str) -> UsageLine<'w> {
    UsageLine {
        before,
        word: Some(word),
        after,
    }
}

/// Adds a word in quotes, with `?` for each control character, and cut where it is long.
fn push_word(text: &mut String, word: &str) -> Result<(), AllocError> {
    text.push_str(" '")?;
    'chars: for c in word.chars().take(MAX_CHARS) {
        text.push(if c.is_control() { '?' } else { c })?;
    }
    text.push('\'')
}

/// Adds a line.
fn push_line(text: &mut String, line: UsageLine<'_>, program: &str) -> Result<(), AllocError> {
    push_named(text, line.before, program)?;
    if let Some(word) = line.word {
        push_word(text, word)?;
    }
    push_named(text, line.after, program)?;
    text.push('\n')
}

/// What is missing, where a command has so many words that are no options.
fn missing(command: &str, count: usize, is_file: bool) -> Option<&'static str> {
    match (command, count) {
        ("eval", 0) => Some("no EXPR and no FILE"),
        ("eval", 1) if is_file => Some("no EXPR: '% . FILE' prints the whole of FILE"),
        ("eval", 1) => Some("no FILE: for standard input name /dev/stdin"),
        ("squash", 0) => Some("no N and no FILE"),
        ("squash", 1) => Some("no FILE, or no N before it"),
        (_, 0) => Some("no FILE"),
        _ => None,
    }
}

/// The line on the first word that is no option, where no command is named before it.
fn line_of_first<'w>(found: &Found<'w>) -> Option<UsageLine<'w>> {
    let first = found.names[0];
    match (is_command_word(first) || first == "e", found.comes_later) {
        (true, true) => Some(about("no command after '--':", first, " is EXPR there")),
        (true, false) => Some(about("the options come after the command", first, "")),
        (false, true) => None,
        (false, false) => Some(about("unknown command", first, end_of_command(first)?)),
    }
}

/// The line on words that `clap` doesn't take.
fn line_of_words<'w>(is_file: bool, found: &Found<'w>) -> UsageLine<'w> {
    if !found.is_named
        && let Some(line) = line_of_first(found)
    {
        return line;
    }
    if let Some(code) = found.code {
        let after = ": a refusal begins with its code, as in 'Error: X1 not a map'";
        return about("unknown code", code, after);
    }
    if let Some(line) = found.lacking {
        return wordless(line);
    }
    if let Some(option) = found.unknown {
        let after = match found.command {
            "eval" => hint(option),
            "history" => ": '--diff', '--journal PATH' and '--explain' are those of this command",
            _ => ": '--journal PATH' and '--explain' are those of this command",
        };
        return about("unexpected option", option, after);
    }
    if let Some(line) = missing(found.command, found.count, is_file) {
        return wordless(line);
    }
    match surplus(found) {
        Some(word) => about("unexpected word", word, ": each run takes one FILE"),
        None => wordless("an option is there twice, or has a value that it doesn't take"),
    }
}

/// The line on what is the matter.
fn line_of<'w>(cause: UsageCause, is_file: bool, found: &Found<'w>) -> UsageLine<'w> {
    match cause {
        UsageCause::NotText => wordless("a word isn't UTF-8"),
        UsageCause::FileIsDash => wordless("FILE is '-': for standard input name /dev/stdin"),
        UsageCause::JournalIsFile => wordless("the journal has the name of FILE"),
        UsageCause::BadCount => {
            let after = ", of the edits that are to be joined";
            about("no number N:", found.names[0], after)
        }
        UsageCause::JournalFolder => wordless("YQ_JOURNALS is no absolute path in UTF-8"),
        UsageCause::LongJournalName => wordless(
            "the journal's name in YQ_JOURNALS would be longer than 255 bytes: name one by '--journal PATH'",
        ),
        UsageCause::FilePath => wordless(
            "FILE's path isn't had, or isn't UTF-8, so its journal has no name in YQ_JOURNALS",
        ),
        UsageCause::Words => line_of_words(is_file, found),
    }
}

/// The first word that is neither a command's name nor an option; an empty one where there is none.
pub fn first_name<'w>(words: &[&'w str]) -> &'w str {
    find(words).names[0]
}

/// What a person should know whose words are no command, in lines: what is the matter, and what to do.
/// `is_file` says whether the first of those words that are neither a command's name nor options is
/// the name of a file that is there; `program` is the name by which the program was called.
pub fn usage_text(
    alloc: Global,
    cause: UsageCause,
    words: &[&str],
    is_file: bool,
    program: &str,
) -> Result<String, AllocError> {
    let found = find(words);
    let mut text = String::new(alloc);
    push_line(&mut text, line_of(cause, is_file, &found), program)?;
    if found.command == "eval" && is_file && found.names[1].starts_with('.') {
        text.push_str("FILE and EXPR are in the other order?\n")?;
    }
    Ok(text)
}
