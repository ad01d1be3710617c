//! Reads: matches, as they are printed.
ghost use Rattle.std.{specs.Prelude.{◌≡◌, IfOk, IfErr, true}, specs.List.list_all, specs.String.string_bytes};
ghost use Rattle.yq_core.{specs.Values.value_node, specs.Strings.AddsText};
ghost use Rattle.yq_eval.specs.MatchView.{matches_of};
ghost use Rattle.yq_semantics.{specs.Program.is_read, specs.View.program_of};
ghost use Rattle.yq_history.specs.Output.{showing_by};
ghost use Rattle.yq_commands.{specs.CommandFaults.{FailsFor, IsOfNoCall}, specs.Evaluation.shows};
ghost use Rattle.yq_commands.specs.ProgramAnswers.{PrintsMatch, ShowsProgram};
ghost use Rattle.yq_commands.specs.Reads as spec;

use crate::reading::utf8_text;
use std::alloc::{AllocError, Global};
use yq_args::EvalOptions;
use yq_core::{Kind, Value, is_true_word};
use yq_edit_rules::print;
use yq_eval::{Match, matches};
use yq_explain::named;
use yq_fault::Fault;
use yq_history::Report;
use yq_semantics::Program;
use yq_tree::read;

/// Adds what comes before a match: the line `---`, where the match before it is in another document.
fn push_marker(
    printed: &mut String,
    no_doc: bool,
    last: Option<usize>,
    doc: usize,
) -> Result<(), AllocError>
    ensures { AddsText result printed.old printed.new (spec.separator_before no_doc last doc) }
{
    match last {
        Some(last) if !no_doc && last != doc => printed.push_str("---\n"),
        _ => Ok(()),
    }
}

/// Adds a match, after one of the document `last`.
fn push_match(
    alloc: Global,
    printed: &mut String,
    no_doc: bool,
    last: Option<usize>,
    found: &Match,
) -> Result<(), AllocError>
    ensures { PrintsMatch result printed.old printed.new no_doc last found.now }
{
    push_marker(printed, no_doc, last, found.doc)?;
    let text = print(alloc, &found.value)?;
    printed.push_str(&text)
}

/// Matches as they are printed.
fn printed_matches(alloc: Global, no_doc: bool, matches: &[Match]) -> Result<String, AllocError>
    ensures { IfOk result (λ s. string_bytes s ≡ spec.printed_matches no_doc
        (matches_of matches.now)) }
{
    let mut printed = String::new(alloc);
    let mut last = None;
    'matches: for found in matches {
        push_match(alloc, &mut printed, no_doc, last, found)?;
        last = Some(found.doc);
    }
    Ok(printed)
}

/// Whether a scalar is null or false.
fn is_null_or_false(kind: Kind, text: &str) -> bool
    ensures { result ≡ spec.is_null_or_false kind text.now }
{
    match kind {
        Kind::Null => true,
        Kind::Bool => !is_true_word(text),
        Kind::Int | Kind::Float | Kind::Text => false,
    }
}

/// Whether a value is no match for `-e`.
fn is_no_match(value: &Value) -> bool
    ensures { result ≡ spec.is_no_match (value_node value.now) }
{
    match value {
        Value::Scalar(scalar) => is_null_or_false(scalar.kind(), scalar.text()),
        Value::List(_) | Value::Map(_) => false,
    }
}

/// Whether all matches are none for `-e`.
fn have_no_match(matches: &[Match]) -> bool
    ensures { result ≡ list_all (λ m. spec.is_no_match (value_node m.value)) matches.now }
{
    matches.iter().all(|found| is_no_match(&found.value))
}

/// What is shown of matches.
#[tactic(auto, using(crate::proofs::ReadLaws::none_each))]
fn report_matches(
    alloc: Global,
    options: EvalOptions,
    matches: &[Match],
) -> Result<Report, AllocError>
    ensures { IfOk result (λ s. showing_by s ≡ spec.report_matches options
        (matches_of matches.now)) }
{
    let text = printed_matches(alloc, options.no_doc, matches)?;
    let is_match = !(options.exit_status && have_no_match(matches));
    Ok(Report { text, is_match })
}

/// What a read shows of a text, which need be no UTF-8.
pub fn show_read(
    alloc: Global,
    program: &Program,
    text: &[u8],
    options: EvalOptions,
) -> Result<Report, Fault>
    requires { is_read (program_of program.now) ≡ true }
    ensures ok { ShowsProgram options program.now text.now result }
    ensures err { FailsFor (shows options (program_of program.now) text.now) result }
    ensures inside { IfErr result IsOfNoCall }
{
    let text = utf8_text(text)?;
    let documents = read(alloc, text.as_bytes())?;
    let found = named(alloc, &documents, 0, matches(alloc, program, &documents))?;
    Ok(report_matches(alloc, options, &found)?)
}
