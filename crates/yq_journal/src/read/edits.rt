//! Records of edits from their values.
ghost use Rattle.std.specs.Prelude.{◌≡◌, IfOk, option_and_then};
ghost use Rattle.serde_json.{specs.Find.get, specs.View.view};
ghost use Rattle.yq_journal.specs.ListAnswers.{GivesItems};
ghost use Rattle.yq_journal.specs.Json as spec;

use super::fields::{bytes, has_keys, number, text};
use crate::{Record, leads};
use serde_json::Value;
use std::alloc::{AllocError, Global};
use yq_text::Splice;

/// A splice, whose keys are `at`, `new` and `old`.
#[tactic(auto, unfolding(crate::specs::Json::splice_of))]
fn splice(alloc: Global, value: &Value) -> Result<Option<Splice>, AllocError>
    ensures { IfOk result (λ o. o ≡ spec.splice_of (view value.now)) }
{
    if !has_keys(value, 3) {
        return Ok(None);
    }
    let Some(at) = number(value, "at") else {
        return Ok(None);
    };
    let Some(old) = bytes(alloc, value, "old")? else {
        return Ok(None);
    };
    let Some(new) = bytes(alloc, value, "new")? else {
        return Ok(None);
    };
    Ok(Some(Splice { at, old, new }))
}

/// A list of splices.
fn splices(alloc: Global, value: &Value) -> Result<Option<Vec<Splice>>, AllocError>
    ensures { GivesItems result (spec.splices_of (view value.now)) }
{
    let Some(values) = value.as_array() else {
        return Ok(None);
    };
    let mut found = Vec::new(alloc);
    'values: for entry in values {
        match splice(alloc, entry)? {
            Some(splice) => found.push(splice)?,
            None => return Ok(None),
        }
    }
    Ok(Some(found))
}

/// How many edits a record means: before version 2 it is one, with no key.
fn count(value: &Value, counted: bool) -> Option<u64>
    ensures { result ≡ spec.count_at counted (view value.now) }
{
    if counted {
        number(value, "count")
    } else {
        Some(1)
    }
}

/// The splices under a key.
fn splices_at(alloc: Global, value: &Value, key: &str) -> Result<Option<Vec<Splice>>, AllocError>
    ensures { GivesItems result (option_and_then spec.splices_of (get key.now (view value.now))) }
{
    match value.get(key) {
        Some(value) => splices(alloc, value),
        None => Ok(None),
    }
}

/// A record, whose keys are `after_len`, `before_len`, from version 2 on
/// `count`, `expr` and `splices`.
#[tactic(auto, unfolding(crate::specs::Json::record_of))]
pub(super) fn record(
    alloc: Global,
    value: &Value,
    counted: bool,
) -> Result<Option<Record>, AllocError>
    ensures { IfOk result (λ o. o ≡ spec.record_of counted (view value.now)) }
{
    if !has_keys(value, if counted { 5 } else { 4 }) {
        return Ok(None);
    }
    let Some(expr) = text(value, "expr") else {
        return Ok(None);
    };
    let Some(splices) = splices_at(alloc, value, "splices")? else {
        return Ok(None);
    };
    let (Some(before_len), Some(after_len)) = (
        number(value, "before_len"),
        number(value, "after_len"),
    ) else {
        return Ok(None);
    };
    let Some(count) = count(value, counted) else {
        return Ok(None);
    };
    if count == 0 || !leads(&splices, before_len, after_len) {
        return Ok(None);
    }
    let expr = String::from_str(alloc, expr)?;
    Ok(Some(Record {
        expr,
        splices,
        before_len,
        after_len,
        count,
        written: None,
    }))
}

/// A list of records.
pub(super) fn records(
    alloc: Global,
    value: &Value,
    counted: bool,
) -> Result<Option<Vec<Record>>, AllocError>
    ensures { GivesItems result (spec.records_of counted (view value.now)) }
{
    let Some(values) = value.as_array() else {
        return Ok(None);
    };
    let mut found = Vec::new(alloc);
    'values: for entry in values {
        match record(alloc, entry, counted)? {
            Some(record) => found.push(record)?,
            None => return Ok(None),
        }
    }
    Ok(Some(found))
}
