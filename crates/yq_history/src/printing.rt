//! The lines of a history.
ghost use Rattle.yq_core.specs.Strings.{AddsText};
ghost use Rattle.yq_history.{specs.Leaves.LeavesAll, specs.Output.{IsOutputText, record_output}, specs.Visible.{in_quotes, visible}};
ghost use Rattle.yq_history.{specs.Report.{nothing, report_by}, specs.PairAnswers.{ArrivesListed, Lists, CallsListing, ListsPair, Prints}};
ghost use Rattle.std.{specs.Prelude.{◌≡◌, IfOk, true, decimal}, specs.String.string_bytes};
ghost use Rattle.json.specs.Print as json;
ghost use Rattle.yq_history.specs.Listing as spec;

use crate::listed_diffs::lines_with_diffs;
use crate::visible::{is_bare, visible};
use crate::{Pair, Report, open_pair};
use itoa::Buffer;
use std::alloc::{AllocError, Global};
use yq_fault::Fault;
use yq_journal::{Journal, push_quoted};
use yq_store::Store;

/// For how many bytes of each line there is room at first.
const LINE_ROOM: usize = 64;

/// A text as a JSON string.
fn quoted(alloc: Global, text: &str) -> Result<String, AllocError>
    ensures { IfOk result (λ s. string_bytes s ≡ json.quoted text.now) }
{
    let mut quoted = String::new(alloc);
    push_quoted(&mut quoted, alloc, text)?;
    Ok(quoted)
}

/// The word for an edit that is done, or undone.
fn state_word(is_done: bool) -> &'static str
    ensures { result.now ≡ spec.state_word is_done }
{
    if is_done { " done " } else { " undone " }
}

/// Adds a number.
fn push_number(lines: &mut String, number: usize) -> Result<(), AllocError>
    ensures { AddsText result lines.old lines.new (decimal number) }
{
    let mut buffer = Buffer::new();
    lines.push_str(buffer.format(number))
}

/// Adds a text between quotes.
fn push_in_quotes(lines: &mut String, text: &str) -> Result<(), AllocError>
    ensures { AddsText result lines.old lines.new (in_quotes text.now) }
{
    lines.push_str("\"")?;
    lines.push_str(text)?;
    lines.push_str("\"")
}

/// Adds a text as a JSON string in which every character that a terminal would act on is escaped. A text
/// without such characters is copied.
fn push_string(lines: &mut String, alloc: Global, text: &str) -> Result<(), AllocError>
    ensures { AddsText result lines.old lines.new (visible (json.quoted text.now)) }
{
    if is_bare(text.as_bytes()) {
        return push_in_quotes(lines, text);
    }
    let quoted = quoted(alloc, text)?;
    let printed = visible(alloc, &quoted)?;
    lines.push_str(&printed)
}

/// Adds the line of an edit. Its number counts from 1.
fn push_edit_line(
    lines: &mut String,
    alloc: Global,
    number: usize,
    is_done: bool,
    expr: &str,
) -> Result<(), AllocError>
    ensures { AddsText result lines.old lines.new (spec.edit_line number is_done expr.now) }
{
    push_number(lines, number)?;
    lines.push_str(state_word(is_done))?;
    push_string(lines, alloc, expr)?;
    lines.push_str("\n")
}

/// The line of an edit. Its number counts from 1.
pub(crate) fn edit_line(
    alloc: Global,
    number: usize,
    is_done: bool,
    expr: &str,
) -> Result<String, AllocError>
    ensures { IfOk result (λ s. string_bytes s ≡ spec.edit_line number is_done expr.now) }
{
    let mut line = String::new(alloc);
    push_edit_line(&mut line, alloc, number, is_done, expr)?;
    Ok(line)
}

/// A line for each record, oldest first, in one text that has room for some bytes of each.
fn lines_of(alloc: Global, state: &Journal) -> Result<String, AllocError>
    ensures { IfOk result (λ s. string_bytes s ≡ spec.record_lines state.now) }
{
    let mut lines = String::with_capacity(alloc, state.len().saturating_mul(LINE_ROOM))?;
    'records: for i in 0..state.len() {
        push_edit_line(
            &mut lines,
            alloc,
            i + 1,
            i < state.at(),
            &state.record(i).expr,
        )?;
    }
    Ok(lines)
}

/// What is printed of the edits of a file: a line for each, and with `diffs` what it changed.
fn output_of(
    alloc: Global,
    file: &str,
    state: &Journal,
    text: Vec<u8>,
    diffs: bool,
) -> Result<String, AllocError>
    ensures { IfOk result (IsOutputText file.now (record_output diffs text.items state.now)) }
{
    if diffs {
        lines_with_diffs(alloc, file, state, text)
    } else {
        lines_of(alloc, state)
    }
}

/// Lists the edits of a file.
pub fn listing<D: Store>(
    alloc: Global,
    store: &mut D,
    pair: &Pair<'_>,
    diffs: bool,
    report: &mut Report,
) -> Result<(), Fault>
    requires empty { report_by report.old ≡ nothing }
    ensures arrives { ArrivesListed D.Store store.old store.new pair.now result }
    ensures effect { ListsPair D.Store store.old store.new pair.now diffs result }
    ensures lines { Lists D.Store store.old pair.now diffs report.new result }
    ensures output { Prints D.Store store.old pair.now diffs report.new result }
    ensures matched { report.new.is_match ≡ true }
    ensures leaves { LeavesAll D.Store store.old store.new result }
    ensures calls { CallsListing D.leads result pair.now diffs store.old store.new }
{
    let (text, state) = open_pair(alloc, store, pair)?;
    report.text = output_of(alloc, pair.file, &state, text, diffs)?;
    Ok(())
}
