//! Expressions that aren't carried out in place: what they show of a file.
ghost use Rattle.std.specs.Prelude.{◌≡◌, IfErr, false};
ghost use Rattle.yq_semantics.{specs.Program.is_read, specs.View.program_of};
ghost use Rattle.yq_history.{specs.Calls.ReadsFile, specs.Leaves.LeavesAll};
ghost use Rattle.yq_commands.{specs.Calls.CallsToShow, specs.Editing.program_in, specs.EvalAsked.asked_in};
ghost use Rattle.yq_commands.{specs.CommandFaults.{FailsFor, IsOfNoCall, RefusedUnparsed, cause_in}, specs.FileEdits.GivesEdit};
ghost use Rattle.yq_commands.specs.Evaluation.{GivesShowing, shows};
ghost use Rattle.yq_commands.specs.ProgramAnswers.{GivesUpdate, PrintsParsed, PrintsWords, ShowsParsed, ShowsWords};

use crate::editing::{edit_text, is_as_expected};
use std::alloc::Global;
use yq_args::{EvalOptions, EvalWords};
use yq_commands::{Parsed, parse, show_read};
use yq_fault::Fault;
use yq_history::Report;
use yq_semantics::Program;
use yq_store::Store;

/// What an update shows of a file's text: the edited one, or with `--diff` what changes.
fn show_edit(
    alloc: Global,
    file: &str,
    program: &Program,
    text: &[u8],
    options: EvalOptions,
) -> Result<Report, Fault>
    requires { is_read (program_of program.now) ≡ false }
    ensures edited { GivesEdit options.diff file.now (program_of program.now) text.now result }
    ensures ok { GivesShowing file.now (shows options (program_of program.now) text.now) result }
    ensures err { FailsFor (shows options (program_of program.now) text.now) result }
    ensures inside { IfErr result IsOfNoCall }
{
    let (edited, change) = edit_text(alloc, file, program, text, options.diff)?;
    let is_match = is_as_expected(options, text, edited.text.as_bytes());
    if options.diff {
        return Ok(Report {
            text: change,
            is_match,
        });
    }
    Ok(Report {
        text: edited.text,
        is_match,
    })
}

/// What a program shows of a file's text, which need be no UTF-8.
fn show(
    alloc: Global,
    file: &str,
    program: &Program,
    text: &[u8],
    options: EvalOptions,
) -> Result<Report, Fault>
    ensures edited { GivesUpdate options.diff file.now program.now text.now result }
    ensures ok { GivesShowing file.now (shows options (program_of program.now) text.now) result }
    ensures err { FailsFor (shows options (program_of program.now) text.now) result }
    ensures inside { IfErr result IsOfNoCall }
{
    if program.is_read() {
        show_read(alloc, program, text, options)
    } else {
        show_edit(alloc, file, program, text, options)
    }
}

/// Shows what a program makes of a file's text.
fn evaluate_program<D: Store>(
    alloc: Global,
    store: &mut D,
    file: &str,
    parsed: &Parsed<'_>,
    report: &mut Report,
) -> Result<(), Fault>
    ensures done { ShowsParsed D.Store store.old store.new file.now parsed.now result report.new }
    ensures edited { PrintsParsed D.Store store.old file.now parsed.now report.new result }
    ensures leaves { LeavesAll D.Store store.old store.new result }
    ensures calls { ReadsFile D.leads result file.now (λ text s t. t ≡ s) store.old store.new }
{
    let text = store.read(alloc, file)?;
    *report = show(alloc, file, parsed.program, &text, parsed.options)?;
    Ok(())
}

/// Shows the matches of an expression that reads in a file, or the file's text as the expression
/// updates it, or with `--diff` what changes.
pub fn evaluate<D: Store>(
    alloc: Global,
    store: &mut D,
    words: &EvalWords,
    report: &mut Report,
) -> Result<(), Fault>
    ensures done { ShowsWords D.Store store.old store.new words.now result report.new }
    ensures edited { PrintsWords D.Store store.old store.new words.now result report.new }
    ensures unparsed { RefusedUnparsed (cause_in (program_in (asked_in words.now).expr)) result }
    ensures leaves { LeavesAll D.Store store.old store.new result }
    ensures calls { CallsToShow D.leads result (asked_in words.now) store.old store.new }
{
    let expr = words.expr.as_str();
    let file = words.file.as_str();
    let program = parse(alloc, expr)?;
    let parsed = Parsed {
        program: &program,
        expr,
        options: words.options,
    };
    evaluate_program(alloc, store, file, &parsed, report)
}
