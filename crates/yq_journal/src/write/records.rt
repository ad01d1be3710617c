//! The text of records and of their splices.
ghost use Rattle.std.specs.Prelude.{[], IfSome, true};
ghost use Rattle.yq_journal.specs.Added.{Adds, changes_data, records_data, AddsJson};
ghost use Rattle.yq_journal.specs.Json as spec;

use super::pieces::{push_base64, push_comma, push_number};
use crate::Record;
use crate::quoting::push_quoted;
use std::alloc::{AllocError, Global};
use std::str::from_utf8;
use yq_text::Splice;

/// Adds a splice.
fn push_splice(text: &mut String, splice: &Splice) -> Result<(), AllocError>
    ensures { AddsJson result text.old text.new spec.change_data spec.splice_of splice.now }
{
    push_number(text, "{\"at\":", splice.at)?;
    text.push_str(",\"new\":\"")?;
    push_base64(text, &splice.new)?;
    text.push_str("\",\"old\":\"")?;
    push_base64(text, &splice.old)?;
    text.push_str("\"}")?;
    Ok(())
}

/// Adds splices.
fn push_splices(text: &mut String, splices: &[Splice]) -> Result<(), AllocError>
    ensures { AddsJson result text.old text.new changes_data spec.splices_of splices.now }
{
    text.push_str("[")?;
    let mut later = false;
    'splices: for splice in splices {
        push_comma(text, later)?;
        push_splice(text, splice)?;
        later = true;
    }
    text.push_str("]")?;
    Ok(())
}

/// Adds a record, piece by piece.
fn push_pieces(text: &mut String, alloc: Global, patch: &Record) -> Result<(), AllocError>
    ensures { AddsJson result text.old text.new spec.record_data (spec.record_of true) patch.now }
{
    push_number(text, "{\"after_len\":", patch.after_len)?;
    push_number(text, ",\"before_len\":", patch.before_len)?;
    push_number(text, ",\"count\":", patch.count)?;
    text.push_str(",\"expr\":")?;
    push_quoted(text, alloc, &patch.expr)?;
    text.push_str(",\"splices\":")?;
    push_splices(text, &patch.splices)?;
    text.push_str("}")?;
    Ok(())
}

/// The text that a record keeps, which is the one that is written of it.
fn kept_text(patch: &Record) -> Option<&str>
    ensures { IfSome result (λ s. Adds spec.record_data (spec.record_of true) patch.now [] s.now) }
{
    match &patch.written {
        Some(written) => from_utf8(written).ok(),
        None => None,
    }
}

/// Adds a record: the text that it keeps as it is, else piece by piece.
pub(super) fn push_record(
    text: &mut String,
    alloc: Global,
    patch: &Record,
) -> Result<(), AllocError>
    ensures { AddsJson result text.old text.new spec.record_data (spec.record_of true) patch.now }
{
    match kept_text(patch) {
        Some(kept) => Ok(text.push_str(kept)?),
        None => push_pieces(text, alloc, patch),
    }
}

/// Adds records.
pub(super) fn push_records(
    text: &mut String,
    alloc: Global,
    records: &[Record],
) -> Result<(), AllocError>
    ensures { AddsJson result text.old text.new records_data (spec.records_of true) records.now }
{
    text.push_str("[")?;
    let mut later = false;
    'records: for patch in records {
        push_comma(text, later)?;
        push_record(text, alloc, patch)?;
        later = true;
    }
    text.push_str("]")?;
    Ok(())
}
