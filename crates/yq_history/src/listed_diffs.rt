//! The lines of a history, each with what its edit changed. Of the texts that the edits lead through, two are
//! in memory at a time.
ghost use Rattle.yq_history.specs.ListedView.{IsChangeText, LeadsBack, LeadsOn, backwards, bytes_of_some};
ghost use Rattle.yq_history.{specs.ListedDiffs.{AreDoneLines, IsDiffOrNote}, specs.Output.{IsOutputText, record_output}};
ghost use Rattle.std.{specs.Prelude.{◌≡◌, true, ◌≤◌, Some, IfOk, [], ◌++◌, drop, length, take}, specs.String.string_bytes};
ghost use Rattle.yq_journal.specs.Record.{done, undone};
ghost use Rattle.yq_history.specs.Listing as spec;

use crate::diff::unified::unified_diff;
use crate::printing::edit_line;
use std::alloc::{AllocError, Global};
use std::str::from_utf8;
use yq_journal::{Journal, JournalError, Record, redo_record, undo_record};

/// What comes after the line of an edit that doesn't fit.
const UNFIT: &str = "no diff: this edit doesn't fit FILE any more\n";

/// What comes after the line of an edit of whose texts one is no UTF-8.
const NO_TEXT: &str = "no diff: FILE is not UTF-8 before or after this edit\n";

/// What an edit of a file changed from a text to bytes.
fn change_to(
    alloc: Global,
    file: &str,
    record: &Record,
    old: &str,
    new: &[u8],
) -> Result<String, AllocError>
    ensures { IfOk result (λ s. IsDiffOrNote file.now old.now new.now (string_bytes s)) }
{
    match from_utf8(new) {
        Ok(new) => unified_diff(alloc, file, old, new, &record.splices),
        Err(_) => String::from_str(alloc, NO_TEXT),
    }
}

/// What an edit of a file changed from bytes to others.
fn change(
    alloc: Global,
    file: &str,
    record: &Record,
    old: &[u8],
    new: &[u8],
) -> Result<String, AllocError>
    ensures { IfOk result (λ s. IsDiffOrNote file.now old.now new.now (string_bytes s)) }
{
    match from_utf8(old) {
        Ok(old) => change_to(alloc, file, record, old, new),
        Err(_) => String::from_str(alloc, NO_TEXT),
    }
}

/// The text from which an edit led to this one, if it did.
fn text_before(alloc: Global, record: &Record, text: &[u8]) -> Result<Option<Vec<u8>>, AllocError>
    ensures { IfOk result (λ o. bytes_of_some o ≡ undone record.now text.now) }
{
    match undo_record(alloc, record, text) {
        Ok(before) => Ok(Some(before)),
        Err(JournalError::Memory) => Err(AllocError),
        Err(JournalError::Fault(_)) => Ok(None),
    }
}

/// The text to which an edit leads from this one, if it does.
fn text_after(alloc: Global, record: &Record, text: &[u8]) -> Result<Option<Vec<u8>>, AllocError>
    ensures { IfOk result (λ o. bytes_of_some o ≡ done record.now text.now) }
{
    match redo_record(alloc, record, text) {
        Ok(after) => Ok(Some(after)),
        Err(JournalError::Memory) => Err(AllocError),
        Err(JournalError::Fault(_)) => Ok(None),
    }
}

/// What comes after the line of a done edit, and the text before it, by the text after it.
fn change_back(
    alloc: Global,
    file: &str,
    record: &Record,
    new: Option<Vec<u8>>,
) -> Result<(String, Option<Vec<u8>>), AllocError>
    ensures old { IfOk result (λ x. LeadsBack record.now new x.1) }
    ensures change { IfOk result (λ x. IsChangeText file.now x.1 new x.0) }
{
    let Some(new) = new else {
        return Ok((String::new(alloc), None));
    };
    match text_before(alloc, record, &new)? {
        Some(old) => Ok((change(alloc, file, record, &old, &new)?, Some(old))),
        None => Ok((String::from_str(alloc, UNFIT)?, None)),
    }
}

/// What comes after the line of an undone edit, and the text after it, by the text before it.
fn change_on(
    alloc: Global,
    file: &str,
    record: &Record,
    old: Option<Vec<u8>>,
) -> Result<(String, Option<Vec<u8>>), AllocError>
    ensures new { IfOk result (λ x. LeadsOn record.now old x.1) }
    ensures change { IfOk result (λ x. IsChangeText file.now old x.1 x.0) }
{
    let Some(old) = old else {
        return Ok((String::new(alloc), None));
    };
    match text_after(alloc, record, &old)? {
        Some(new) => Ok((change(alloc, file, record, &old, &new)?, Some(new))),
        None => Ok((String::from_str(alloc, UNFIT)?, None)),
    }
}

/// How many records are done.
#[tactic(auto, using(crate::proofs::ListedLaws::none_at, crate::proofs::ListedLaws::none_at_all))]
fn done_count(state: &Journal) -> usize
    ensures at { result ≤ state.now.at }
    ensures within { result ≤ length state.now.records }
    ensures all { drop result (take state.now.at state.now.records) ≡ [] }
{
    let at = state.at();
    let len = state.len();
    if at < len { at } else { len }
}

/// The line of an edit with what comes after it. Its number counts from 1.
fn line_with(
    alloc: Global,
    number: usize,
    is_done: bool,
    expr: &str,
    change: &str,
) -> Result<String, AllocError>
    ensures { IfOk result (λ s. string_bytes s ≡ spec.edit_line number is_done expr.now ++
        change.now) }
{
    let mut line = edit_line(alloc, number, is_done, expr)?;
    line.push_str(change)?;
    Ok(line)
}

/// The lines of the done edits, each with what it changed, the last one first.
fn done_lines(
    alloc: Global,
    file: &str,
    state: &Journal,
    text: &[u8],
) -> Result<Vec<String>, AllocError>
    ensures { IfOk result (λ v. AreDoneLines file.now state.now text.now (backwards v.items)) }
{
    let mut lines = Vec::with_capacity(alloc, state.at())?;
    let mut near = Some(Vec::from_slice(alloc, text)?);
    let mut left = done_count(state);
    'records: while left > 0 {
        left -= 1;
        let record = state.record(left);
        let (change, far) = change_back(alloc, file, record, near)?;
        let is_done = left < state.at();
        let line = line_with(alloc, left + 1, is_done, &record.expr, &change)?;
        lines.push(line)?;
        near = far;
    }
    Ok(lines)
}

/// Texts as one, the last one first.
fn joined_back(alloc: Global, texts: Vec<String>) -> Result<String, AllocError>
    ensures { IfOk result (λ s. string_bytes s ≡ backwards texts.items) }
{
    let mut texts = texts;
    let mut joined = String::new(alloc);
    'texts: while let Some(text) = texts.pop() {
        joined.push_str(&text)?;
    }
    Ok(joined)
}

/// The lines of all edits of a file, each with what it changed, from where the text is now.
pub(crate) fn lines_with_diffs(
    alloc: Global,
    file: &str,
    state: &Journal,
    text: Vec<u8>,
) -> Result<String, AllocError>
    ensures { IfOk result (IsOutputText file.now (record_output true text.items state.now)) }
{
    let done = done_lines(alloc, file, state, &text)?;
    let mut lines = joined_back(alloc, done)?;
    let mut near = Some(text);
    'records: for i in state.at()..state.len() {
        let record = state.record(i);
        let (change, far) = change_on(alloc, file, record, near)?;
        let is_done = i < state.at();
        let line = line_with(alloc, i + 1, is_done, &record.expr, &change)?;
        lines.push_str(&line)?;
        near = far;
    }
    Ok(lines)
}
