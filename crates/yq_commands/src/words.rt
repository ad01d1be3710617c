//! The command that the program's words ask for.
ghost use Rattle.std.specs.Prelude.{◌≡◌, ◌≢◌, IfOk, IfErr, map, true, Ok};
ghost use Rattle.yq_commands.specs.WordFaults.{RefusesWords, of_words};
ghost use Rattle.yq_args.specs.declared.command.Command.TheVariants.{Help};
ghost use Rattle.yq_fault.specs.declared.fault.Fault.TheVariants.{OutOfMemory};
ghost use Rattle.yq_args.specs.Asked as spec;

use std::alloc::Global;
use yq_args::{Command, WordsError, read_words};
use yq_fault::Fault;

/// Why words are no command.
pub fn words_fault(error: WordsError) -> Fault
    ensures { result ≡ of_words error }
{
    match error {
        WordsError::Fault(cause) => Fault::Usage(cause),
        WordsError::Memory => Fault::OutOfMemory,
    }
}

/// The command of the words, which don't include the program's name.
///
/// A first word that names no command is read as if `eval` came before it. A call for help
/// (`-h`, `--help`) is `Help`. The words are refused with `Usage` where `clap` refuses them, where FILE is `-`, where
/// the journal has FILE's name, and where N isn't a number of 64 bits.
pub fn command_of(alloc: Global, words: &[&str]) -> Result<Command, Fault>
    ensures asked { IfOk result (spec.IsAsked (spec.found_in (map (λ w. w.now) words.now))) }
    // Words that clap doesn't take are no command, unless they ask for help.
    ensures taken { IfOk result (λ c. c ≢ Help →
        spec.is_taken (map (λ w. w.now) words.now) ≡ true) }
    ensures help { spec.is_taken (map (λ w. w.now) words.now) ≡ true → result ≢ Ok Help }
    // Help is answered where `-h` or `--help` is a word and clap reads a call for help, and not else.
    ensures only { result ≡ Ok Help → spec.MayCallHelp (map (λ w. w.now) words.now) }
    ensures called { spec.CallsHelp (map (λ w. w.now) words.now) →
        spec.IsHelpOr OutOfMemory result }
    ensures err { IfErr result (RefusesWords (map (λ w. w.now) words.now)) }
{
    match read_words(alloc, words) {
        Ok(command) => Ok(command),
        Err(error) => Err(words_fault(error)),
    }
}
