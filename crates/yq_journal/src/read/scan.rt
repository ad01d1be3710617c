//! A journal from a text of the written form, by one pass and with no tree of values. What is scanned is the
//! very text that is written of it, so the records keep theirs, and it is not written anew.
ghost use Rattle.std.specs.Prelude.{◌≡◌, ◌-◌, ◌^◌, ◌<◌, ◌++◌, IfOk, IfSome, Some, length, take, true};
ghost use Rattle.yq_journal.specs.Added.{changes_data, records_data, FindsJson, splice_front, record_front, journal_front};
ghost use Rattle.serde_json.specs.Written.{comma_if};
ghost use Rattle.yq_journal.specs.Json as spec;

use super::pieces::{after, bytes, number, string};
use crate::journal::Journal;
use crate::{MAX_RECORDS, Record, leads};
use std::alloc::{AllocError, Global};
use std::str::from_utf8;
use yq_text::Splice;

/// No record is shorter than so many bytes, with the comma before it.
const LEAST_RECORD: usize = 64;

/// What comes after the comma before an item, where it isn't the first one of a list.
fn after_comma(text: &[u8], later: bool) -> Option<&[u8]>
    ensures { IfSome result (λ rest. text.now ≡ comma_if later ++ rest.now) }
{
    if later { after(text, b",") } else { Some(text) }
}

/// The offset of a splice, and what comes after it and the next key.
#[tactic(auto, using(crate::proofs::FrontLaws::and_then))]
fn offset(text: &[u8]) -> Option<(u64, &[u8])>
    ensures text { IfSome result (λ p. text.now ≡ splice_front p.0 ++ p.1.now) }
    ensures fits { IfSome result (λ p. p.0 < 2 ^ 64) }
{
    let (at, rest) = number(after(text, b"{\"at\":")?)?;
    Some((at, after(rest, b",\"new\":\"")?))
}

/// A splice, and what comes after it.
fn splice<'t>(alloc: Global, text: &'t [u8]) -> Result<Option<(Splice, &'t [u8])>, AllocError>
    ensures { FindsJson result (λ s. s) spec.change_data spec.splice_of text.now }
{
    let Some((at, rest)) = offset(text) else {
        return Ok(None);
    };
    let Some((new, rest)) = bytes(alloc, rest)? else {
        return Ok(None);
    };
    let Some(rest) = after(rest, b"\",\"old\":\"") else {
        return Ok(None);
    };
    let Some((old, rest)) = bytes(alloc, rest)? else {
        return Ok(None);
    };
    match after(rest, b"\"}") {
        Some(rest) => Ok(Some((Splice { at, old, new }, rest))),
        None => Ok(None),
    }
}

/// A list of splices, and what comes after it.
fn splices<'t>(alloc: Global, text: &'t [u8]) -> Result<Option<(Vec<Splice>, &'t [u8])>, AllocError>
    ensures { FindsJson result (λ v. v.items) changes_data spec.splices_of text.now }
{
    let Some(begun) = after(text, b"[") else {
        return Ok(None);
    };
    let mut found = Vec::with_capacity(alloc, 1)?;
    let mut left = begun;
    let mut later = false;
    'splices: for _ in 0..text.len() {
        if let Some(rest) = after(left, b"]") {
            return Ok(Some((found, rest)));
        }
        let Some(next) = after_comma(left, later) else {
            return Ok(None);
        };
        let Some((splice, rest)) = splice(alloc, next)? else {
            return Ok(None);
        };
        found.push(splice)?;
        left = rest;
        later = true;
    }
    Ok(None)
}

/// A copy of what comes before the rest of a text.
fn front(alloc: Global, text: &[u8], rest: &[u8]) -> Result<Vec<u8>, AllocError>
    ensures { IfOk result (λ v. v.items ≡ take (length text.now - length rest.now) text.now) }
{
    Vec::from_slice(alloc, &text[..text.len().saturating_sub(rest.len())])
}

/// The lengths and the count of a record, and what comes after them and the next key.
fn numbers(text: &[u8]) -> Option<(u64, u64, u64, &[u8])>
    ensures text { IfSome result (λ p. text.now ≡ record_front p.0 p.1 p.2 ++ p.3.now) }
    ensures fits { IfSome result (λ p. (p.0 < 2 ^ 64) × (p.1 < 2 ^ 64) × (p.2 < 2 ^ 64)) }
{
    let (after_len, rest) = number(after(text, b"{\"after_len\":")?)?;
    let (before_len, rest) = number(after(rest, b",\"before_len\":")?)?;
    let (count, rest) = number(after(rest, b",\"count\":")?)?;
    Some((after_len, before_len, count, after(rest, b",\"expr\":")?))
}

/// A record that keeps its text, and what comes after it.
fn record<'t>(alloc: Global, text: &'t [u8]) -> Result<Option<(Record, &'t [u8])>, AllocError>
    ensures { FindsJson result (λ r. r) spec.record_data (spec.record_of true) text.now }
{
    let Some((after_len, before_len, count, rest)) = numbers(text) else {
        return Ok(None);
    };
    let Some((expr, rest)) = string(alloc, rest)? else {
        return Ok(None);
    };
    let Some(rest) = after(rest, b",\"splices\":") else {
        return Ok(None);
    };
    let Some((splices, rest)) = splices(alloc, rest)? else {
        return Ok(None);
    };
    let Some(rest) = after(rest, b"}") else {
        return Ok(None);
    };
    if count == 0 {
        return Ok(None);
    }
    if !leads(&splices, before_len, after_len) {
        return Ok(None);
    }
    let written = front(alloc, text, rest)?;
    let record = Record {
        expr,
        splices,
        before_len,
        after_len,
        count,
        written: Some(written),
    };
    Ok(Some((record, rest)))
}

/// A list of records, no more than a journal may hold, and what comes after it.
fn records<'t>(alloc: Global, text: &'t [u8]) -> Result<Option<(Vec<Record>, &'t [u8])>, AllocError>
    ensures { FindsJson result (λ v. v.items) records_data (spec.records_of true) text.now }
{
    let Some(begun) = after(text, b"[") else {
        return Ok(None);
    };
    let mut found = Vec::with_capacity(alloc, begun.len() / LEAST_RECORD)?;
    let mut left = begun;
    let mut later = false;
    'records: for _ in 0..=MAX_RECORDS {
        if let Some(rest) = after(left, b"]") {
            return Ok(Some((found, rest)));
        }
        let Some(next) = after_comma(left, later) else {
            return Ok(None);
        };
        let Some((record, rest)) = record(alloc, next)? else {
            return Ok(None);
        };
        found.push(record)?;
        left = rest;
        later = true;
    }
    Ok(None)
}

/// The cursor of a journal with no open move, and what comes after it and the key of the records.
fn cursor(text: &[u8]) -> Option<(u64, &[u8])>
    ensures text { IfSome result (λ p. text.now ≡ journal_front p.0 ++ p.1.now) }
    ensures fits { IfSome result (λ p. p.0 < 2 ^ 64) }
{
    let (at, rest) = number(after(text, b"{\"at\":")?)?;
    Some((at, after(rest, b",\"pending\":null,\"records\":")?))
}

/// The journal with no open move that is written as these bytes.
pub(super) fn scanned(alloc: Global, bytes: &[u8]) -> Result<Option<Journal>, AllocError>
    ensures text { IfOk result (λ o. IfSome o (λ j. bytes.now ≡ spec.journal_text j)) }
    ensures reads_back { IfOk result (λ o. IfSome o (λ j. spec.journal_in bytes.now ≡ Some j)) }
{
    let Ok(_) = from_utf8(bytes) else {
        return Ok(None);
    };
    let Some((at, rest)) = cursor(bytes) else {
        return Ok(None);
    };
    let Some((records, rest)) = records(alloc, rest)? else {
        return Ok(None);
    };
    let Some(end) = after(rest, b",\"version\":2}\n") else {
        return Ok(None);
    };
    if end.len() > 0 || records.len() > MAX_RECORDS || at > records.len() as u64 {
        return Ok(None);
    }
    Ok(Some(Journal {
        records,
        at: at as usize,
        open: None,
        alloc,
    }))
}
