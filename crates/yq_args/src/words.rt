//! The words of the command line.
ghost use Rattle.std.specs.Prelude.{◌≡◌, ◌≢◌, IfOk, IfErr, map, true, Ok};
ghost use Rattle.clap.specs.Words.{subcommand_of, takes};
ghost use Rattle.yq_args.{specs.declared.command.Command.TheVariants.Help, specs.Line.yq};
ghost use Rattle.yq_failure.specs.declared.failure.Failure.TheVariants.{Memory};
ghost use Rattle.yq_args.specs.Asked as spec;

use crate::asked::has_journal;
use crate::{Command, UsageCause, WordsError, command_in, matched, split_command};
use clap::error::ErrorKind;
use std::alloc::{AllocError, Global};

/// The words as `clap` reads them.
fn full_words<'a>(alloc: Global, words: &[&'a str]) -> Result<Vec<&'a str>, AllocError>
    ensures { IfOk result (λ full. map (λ w. w.now) full.items ≡
        spec.full_words (map (λ w. w.now) words.now)) }
{
    let (command, rest) = split_command(words);
    let mut full = Vec::with_capacity(alloc, rest.len())?;
    full.push("yq")?;
    full.push(command)?;
    full.extend_from_slice(rest)?;
    Ok(full)
}

/// Whether a word asks for help.
fn is_help_word(word: &str) -> bool
    ensures { result ≡ spec.is_help_word word.now }
{
    word == "-h" || word == "--help"
}

/// Whether some word asks for help.
fn asks_help(words: &[&str]) -> bool
    ensures { result ≡ spec.asks_help (map (λ w. w.now) words.now) }
{
    let mut rest = words;
    'words: while let [word, after @ ..] = rest {
        if is_help_word(word) {
            return true;
        }
        rest = after;
    }
    false
}

/// What is answered where `clap` finds nothing: help, if a word asks for it.
fn without_matches(kind: ErrorKind, asked: bool) -> Result<Command, WordsError>
    ensures ok { IfOk result (λ c. (c ≡ Help) × (kind ≡ ErrorKind.DisplayHelp) × (asked ≡ true)) }
    ensures err { IfErr result (spec.AnswersKind kind asked) }
{
    match kind {
        ErrorKind::DisplayHelp if asked => Ok(Command::Help),
        ErrorKind::OutOfMemory => Err(WordsError::Memory),
        _ => Err(WordsError::Fault(UsageCause::Words)),
    }
}

/// The command of the words as `clap` reads them.
fn command_by(alloc: Global, full: &[&str], asked: bool) -> Result<Command, WordsError>
    ensures asked { IfOk result (spec.IsAsked (subcommand_of yq (map (λ w. w.now) full.now))) }
    ensures taken { IfOk result (λ c. c ≢ Help → takes yq (map (λ w. w.now) full.now) ≡ true) }
    ensures help { takes yq (map (λ w. w.now) full.now) ≡ true → result ≢ Ok Help }
    ensures only { result ≡ Ok Help → (asked ≡ true) ×
        spec.MayEndAtHelp (map (λ w. w.now) full.now) }
    ensures called { asked ≡ true → spec.EndsAtHelp (map (λ w. w.now) full.now) →
        spec.IsHelpOr Memory result }
    ensures err { IfErr result (spec.IsNotTaken (map (λ w. w.now) full.now)) }
{
    match matched(alloc, full) {
        Err(e) => without_matches(e.kind(), asked),
        Ok(matches) => match matches.subcommand() {
            Some((name, found)) => command_in(alloc, name, found),
            None => Err(WordsError::Fault(UsageCause::Words)),
        },
    }
}

/// Whether words that `clap` takes name a journal.
pub fn names_journal(alloc: Global, words: &[&str]) -> Result<bool, WordsError>
    ensures { IfOk result (λ b. b ≡
        spec.names_journal (spec.found_in (map (λ w. w.now) words.now))) }
{
    let full = full_words(alloc, words)?;
    match matched(alloc, &full) {
        Err(e) if e.kind() == ErrorKind::OutOfMemory => Err(WordsError::Memory),
        Err(_) => Err(WordsError::Fault(UsageCause::Words)),
        Ok(matches) => match matches.subcommand() {
            Some((_, found)) => Ok(has_journal(found)),
            None => Ok(false),
        },
    }
}

/// The command of the words, which don't include the program's name.
///
/// A first word that names no command is read as if `eval` came before it. A call for help
/// (`-h`, `--help`) is `Help`. The words are refused with `Usage` where `clap` refuses them, where FILE is `-`, where
/// the journal has FILE's name, and where N isn't a number of 64 bits.
pub fn read_words(alloc: Global, words: &[&str]) -> Result<Command, WordsError>
    ensures asked { IfOk result (spec.IsAsked (spec.found_in (map (λ w. w.now) words.now))) }
    // Words that clap doesn't take are no command, unless they ask for help.
    ensures taken { IfOk result (λ c. c ≢ Help →
        spec.is_taken (map (λ w. w.now) words.now) ≡ true) }
    ensures help { spec.is_taken (map (λ w. w.now) words.now) ≡ true → result ≢ Ok Help }
    // Help is answered where `-h` or `--help` is a word and clap reads a call for help, and not else.
    ensures only { result ≡ Ok Help → spec.MayCallHelp (map (λ w. w.now) words.now) }
    ensures called { spec.CallsHelp (map (λ w. w.now) words.now) →
        spec.IsHelpOr Memory result }
    ensures err { IfErr result (spec.WordsRefused (spec.full_words (map (λ w. w.now) words.now))) }
{
    let full = full_words(alloc, words)?;
    command_by(alloc, &full, asks_help(words))
}
