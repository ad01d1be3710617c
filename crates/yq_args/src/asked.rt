//! What the words of a command ask for.
ghost use Rattle.std.{specs.Prelude.{◌≡◌, ◌≢◌, Option, Ok, IfOk, IfErr, codes, is_some, Some, None, option_map}, specs.String.string_bytes};
ghost use Rattle.clap.specs.Words.{first_of, one_of, rows_of, found_of};
ghost use Rattle.yq_args.specs.declared.command.Command.TheVariants.{Help};
ghost use Rattle.yq_args.specs.Asked as spec;

use crate::cause::WordsError;
use crate::command::Command;
use crate::setting::expression;
use crate::{EvalOptions, EvalWords, UsageCause};
use clap::ArgMatches;
use std::alloc::{AllocError, Global};

/// A text that was found.
fn text_of<'a>(matches: &ArgMatches<'a>, id: &str) -> Option<&'a str>
    ensures { option_map (λ s. s.now) result ≡ first_of id.now (rows_of (found_of matches.now)) }
{
    matches.get_str(id)
}

/// Whether a switch was found.
fn switch_of(matches: &ArgMatches, id: &str) -> bool
    ensures { spec.IsSwitch (one_of id.now (rows_of (found_of matches.now))) result }
{
    matches.get_flag(id)
}

/// The number that decimal digits write.
fn count_of(text: &str) -> Option<u64>
    ensures { result ≡ spec.count_in text.now }
{
    if text.starts_with('+') {
        return None;
    }
    text.parse().ok()
}

/// The journal's name, where one is given, or by the file's.
fn journal_name(alloc: Global, option: Option<&str>, file: &str) -> Result<String, AllocError>
    ensures { IfOk result (λ name. string_bytes name ≡ spec.journal_name
        (option_map (λ s. s.now) option.entry) file.now) }
{
    match option {
        Some(name) => String::from_str(alloc, name),
        None => format!(in alloc; "{file}.undo.json"),
    }
}

/// Whether a journal is named.
pub fn has_journal(matches: &ArgMatches) -> bool
    ensures { result ≡ is_some (first_of (codes "journal") (rows_of (found_of matches.now))) }
{
    text_of(matches, "journal").is_some()
}

/// The names of the file and of its journal.
fn names_of(alloc: Global, matches: &ArgMatches) -> Result<(String, String), WordsError>
    ensures ok { IfOk result (spec.AreNames (rows_of (found_of matches.now))) }
    ensures err { IfErr result (spec.AreNamesMissed (rows_of (found_of matches.now))) }
{
    let Some(file) = text_of(matches, "file") else {
        return Err(WordsError::Fault(UsageCause::Words));
    };
    let journal = journal_name(alloc, text_of(matches, "journal"), file)?;
    if file == "-" {
        return Err(WordsError::Fault(UsageCause::FileIsDash));
    }
    if journal.as_str() == file {
        return Err(WordsError::Fault(UsageCause::JournalIsFile));
    }
    Ok((String::from_str(alloc, file)?, journal))
}

/// The options of `eval`.
fn options_of(matches: &ArgMatches) -> EvalOptions
    ensures { spec.HasOptions (rows_of (found_of matches.now)) result }
{
    EvalOptions {
        exit_status: switch_of(matches, "exit-status"),
        no_doc: switch_of(matches, "no-doc"),
        diff: switch_of(matches, "diff"),
        expect_change: switch_of(matches, "expect-change"),
    }
}

/// `eval`
fn eval_in(alloc: Global, matches: &ArgMatches) -> Result<Command, WordsError>
    ensures ok { IfOk result (spec.IsAsked (Some (codes "eval", rows_of (found_of matches.now)))) }
    ensures err { IfErr result (spec.IsMissed (codes "eval") (rows_of (found_of matches.now))) }
    ensures some { result ≢ Ok Help }
{
    let (file, journal) = names_of(alloc, matches)?;
    let Some(expr) = text_of(matches, "expr") else {
        return Err(WordsError::Fault(UsageCause::Words));
    };
    Ok(Command::Eval {
        words: EvalWords {
            expr: expression(alloc, expr, text_of(matches, "text"))?,
            file,
            journal,
            options: options_of(matches),
        },
        in_place: switch_of(matches, "inplace"),
    })
}

/// `squash`
fn squash_in(alloc: Global, matches: &ArgMatches) -> Result<Command, WordsError>
    ensures ok { IfOk result (spec.IsAsked (Some (codes "squash", rows_of (found_of matches.now)))) }
    ensures err { IfErr result (spec.IsMissed (codes "squash") (rows_of (found_of matches.now))) }
    ensures some { result ≢ Ok Help }
{
    let (file, journal) = names_of(alloc, matches)?;
    match text_of(matches, "n").and_then(count_of) {
        Some(n) => Ok(Command::Squash { n, file, journal }),
        None => Err(WordsError::Fault(UsageCause::BadCount)),
    }
}

/// The command of a word and of what was found after it.
pub fn command_in(alloc: Global, name: &str, matches: &ArgMatches) -> Result<Command, WordsError>
    ensures ok { IfOk result (spec.IsAsked (Some (name.now, rows_of (found_of matches.now)))) }
    ensures err { IfErr result (spec.IsMissed name.now (rows_of (found_of matches.now))) }
    ensures some { result ≢ Ok Help }
{
    match name {
        "eval" => return eval_in(alloc, matches),
        "squash" => return squash_in(alloc, matches),
        _ => {}
    }
    let (file, journal) = names_of(alloc, matches)?;
    match name {
        "undo" => Ok(Command::Undo { file, journal }),
        "redo" => Ok(Command::Redo { file, journal }),
        "history" => Ok(Command::History {
            file,
            journal,
            diffs: switch_of(matches, "diff"),
        }),
        _ => Err(WordsError::Fault(UsageCause::Words)),
    }
}
