//! Edits of texts, and of files next to their journals.
ghost use Rattle.std.{specs.Prelude.{◌≡◌, IfOk, IfErr, [], false}, specs.String.string_bytes};
ghost use Rattle.yq_semantics.specs.View.{program_of};
ghost use Rattle.yq_commands.specs.CommandDone.{MatchesStill};
ghost use Rattle.yq_commands.specs.Editing.{LengthsLead, RefusedBy, SplicesLead, outcome_of, program_edits};
ghost use Rattle.yq_commands.{specs.CommandFaults.IsOfNoCall, specs.Expecting.changes_as_expected, specs.FileEdits.IsEditedBy};
ghost use Rattle.yq_commands.specs.ProgramAnswers.{EditsParsed, GivesChange, GivesProgramChange, ShowsEdit, parsed_effect};
ghost use Rattle.yq_history.{specs.Leaves.LeavesStore, specs.OpenedAnswers.MakesFrom, specs.Report.report_by};

use std::alloc::{AllocError, Global};
use yq_args::EvalOptions;
use yq_commands::{Parsed, commit, utf8_text};
use yq_fault::Fault;
use yq_history::{OpenPair, Report, unified_diff};
use yq_semantics::Program;
use yq_splice::{Edited, edit};
use yq_store::Store;

/// What an edit of a file's text changes, where that is asked for.
fn change_of(
    alloc: Global,
    file: &str,
    text: &str,
    edited: &Edited,
    diff: bool,
) -> Result<String, AllocError>
    ensures { GivesChange file.now diff text.now (outcome_of edited.now) result }
{
    if diff {
        unified_diff(alloc, file, text, &edited.text, &edited.splices)
    } else {
        Ok(String::new(alloc))
    }
}

/// Edits a file's text, which need be no UTF-8, by a program, and says with `diff` what that changes.
#[tactic(auto, unfolding(yq_commands::specs::Editing::program_edits), using(yq_commands::proofs::EditingLaws::unread_refuses, crate::proofs::EditFaults::edit_refuses, crate::proofs::EditFaults::edit_inside))]
pub fn edit_text(
    alloc: Global,
    file: &str,
    program: &Program,
    text: &[u8],
    diff: bool,
) -> Result<(Edited, String), Fault>
    ensures ok { IfOk result (λ e.
        program_edits (program_of program.now) text.now ≡ outcome_of e.0) }
    ensures splices { IfOk result (λ e. SplicesLead text.now e.0) }
    ensures lengths { IfOk result (λ e. LengthsLead text.now e.0) }
    ensures edited { IfOk result (λ e. IsEditedBy (program_of program.now) text.now e.0) }
    ensures change { GivesProgramChange file.now diff text.now program.now result }
    ensures err { RefusedBy (program_edits (program_of program.now) text.now) result }
    ensures inside { IfErr result IsOfNoCall }
{
    let text = utf8_text(text)?;
    let edited = edit(alloc, text, program)?;
    let change = change_of(alloc, file, text, &edited, diff)?;
    Ok((edited, change))
}

/// Whether an edit from one text to another changes what it is asked to change.
pub fn is_as_expected(options: EvalOptions, old: &[u8], new: &[u8]) -> bool
    ensures { result ≡ changes_as_expected options old.now new.now }
{
    !(options.expect_change && new == old)
}

/// Edits a file next to its settled journal. An edit to an equal text writes nothing. The report says
/// whether the edit changes what it is asked to change, and with `--diff` what it changes.
pub fn edit_from<D: Store>(
    alloc: Global,
    store: &mut D,
    open: OpenPair<'_>,
    parsed: &Parsed<'_>,
    report: &mut Report,
) -> Result<(), Fault>
    requires empty { string_bytes report.old.text ≡ [] }
    ensures done { EditsParsed D.Store store.old store.new open.entry parsed.now result report.new }
    ensures silent { parsed.now.options.diff ≡ false → string_bytes report.new.text ≡ [] }
    ensures shows { ShowsEdit open.entry parsed.now report.new result }
    ensures unasked { MatchesStill parsed.now.options (report_by report.old) (report_by report.new) }
    ensures leaves { LeavesStore D.Store store.old store.new result }
    ensures calls { MakesFrom D.leads result open.entry (parsed_effect parsed.now) store.old store.new }
{
    let options = parsed.options;
    let old = open.text.as_slice();
    let (edited, change) = edit_text(alloc, open.pair.file, parsed.program, old, options.diff)?;
    report.text = change;
    report.is_match = is_as_expected(options, old, edited.text.as_bytes());
    commit(alloc, store, open, parsed.expr, edited)
}
