//! One command, carried out over a store.
ghost use Rattle.std.{specs.Prelude.{◌≡◌, [], false}, specs.String.string_bytes};
ghost use Rattle.yq_commands.{specs.CommandDone.{IsSilent, MatchesStill, MatchesUnasked}, specs.CommandFaults.{RefusedUnparsed, cause_in}};
ghost use Rattle.yq_commands.{specs.CommandEffects.expression_cause, specs.Editing.program_in, specs.Calls.{CallsOf, CallsToEdit}};
ghost use Rattle.yq_commands.{specs.EvalAsked.asked_in, specs.Help.Helps, specs.ProgramAnswers.{Executes, Updates}};
ghost use Rattle.yq_history.{specs.Leaves.LeavesStore, specs.Report.{nothing, report_by}};

use crate::editing::edit_from;
use crate::evaluating::evaluate;
use std::alloc::Global;
use yq_args::{Command, EvalWords};
use yq_commands::help::help;
use yq_commands::{Parsed, parse};
use yq_fault::Fault;
use yq_history::{Direction, OpenPair, Pair, Report, listing, move_file, open_pair, squash};
use yq_store::Store;

/// Edits a file in place, and reports with `--diff` what changed.
fn update<D: Store>(
    alloc: Global,
    store: &mut D,
    words: &EvalWords,
    report: &mut Report,
) -> Result<(), Fault>
    requires empty { string_bytes report.old.text ≡ [] }
    ensures done { Updates D.Store store.old store.new words.now result report.new }
    ensures unparsed { RefusedUnparsed (cause_in (program_in (asked_in words.now).expr)) result }
    ensures silent { words.now.options.diff ≡ false → string_bytes report.new.text ≡ [] }
    ensures unasked { MatchesStill words.now.options (report_by report.old) (report_by report.new) }
    ensures leaves { LeavesStore D.Store store.old store.new result }
    ensures calls { CallsToEdit D.leads result (asked_in words.now) store.old store.new }
{
    let expr = words.expr.as_str();
    let file = words.file.as_str();
    let journal = words.journal.as_str();
    let program = parse(alloc, expr)?;
    let pair = Pair { file, journal };
    let (text, state) = open_pair(alloc, store, &pair)?;
    let open = OpenPair { pair, text, state };
    let parsed = Parsed {
        program: &program,
        expr,
        options: words.options,
    };
    edit_from(alloc, store, open, &parsed, report)
}

/// A file and its journal, by their names.
fn pair_of<'a>(file: &'a String, journal: &'a String) -> Pair<'a>
    ensures file_is { result.file.now ≡ string_bytes file.now }
    ensures journal_is { result.journal.now ≡ string_bytes journal.now }
{
    Pair {
        file: file.as_str(),
        journal: journal.as_str(),
    }
}

/// Carries out a command but for its output, and reports what it shows.
pub fn execute<D: Store>(
    alloc: Global,
    store: &mut D,
    command: &Command,
    report: &mut Report,
) -> Result<(), Fault>
    requires empty { report_by report.old ≡ nothing }
    ensures done { Executes D.Store store.old store.new command.now result report.new }
    ensures unparsed { RefusedUnparsed (expression_cause command.now) result }
    ensures silent { IsSilent command.now (report_by report.new) }
    ensures matched { MatchesUnasked command.now (report_by report.new) }
    ensures helped { Helps command.now result (report_by report.new) }
    ensures leaves { LeavesStore D.Store store.old store.new result }
    ensures calls { CallsOf D.leads result command.now store.old store.new }
{
    match command {
        Command::Eval {
            words,
            in_place: true,
        } => update(alloc, store, words, report),
        Command::Eval { words, .. } => evaluate(alloc, store, words, report),
        Command::Undo { file, journal } => {
            move_file(alloc, store, &pair_of(file, journal), Direction::Undo)
        }
        Command::Redo { file, journal } => {
            move_file(alloc, store, &pair_of(file, journal), Direction::Redo)
        }
        Command::History {
            file,
            journal,
            diffs,
        } => listing(alloc, store, &pair_of(file, journal), *diffs, report),
        Command::Squash { n, file, journal } => squash(alloc, store, &pair_of(file, journal), *n),
        Command::Help => help(alloc, report),
    }
}
