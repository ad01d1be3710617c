//! A journal from its text.
ghost use Rattle.std.specs.Prelude.{◌≡◌, Some, IfOk, IfErr, option_map};
ghost use Rattle.serde_json.specs.View.{view};
ghost use Rattle.yq_journal.{specs.Refusals.{ErrorIs, if_journal}, specs.State.state, specs.Json.json_value};
ghost use Rattle.yq_journal.specs.Json as spec;

pub(crate) mod edits;
mod fields;
mod open_move;
mod pieces;
mod scan;

use crate::journal::{Journal, Open};
use crate::{JournalError, JournalFault, MAX_RECORDS, Record};
use edits::records;
use fields::{has_keys, number};
use open_move::{can_move, pending};
use scan::scanned;
use serde_json::Value;
use std::alloc::{AllocError, Global};

/// Whether a journal has no more records than it may, its cursor among them,
/// and no open move but one that can be made.
#[tactic(auto, unfolding(crate::specs::Json::is_sound_journal))]
fn is_sound(
    alloc: Global,
    records: &[Record],
    at: u64,
    open: &Option<Open>,
) -> Result<bool, AllocError>
    ensures { IfOk result (λ b. b ≡ spec.is_sound_journal (state records.now at open.now)) }
{
    if records.len() > MAX_RECORDS || at > records.len() as u64 {
        return Ok(false);
    }
    match open {
        Some(open) => can_move(alloc, records, at as usize, open),
        None => Ok(true),
    }
}

/// The journal of a version with or without counts.
#[tactic(auto, unfolding(crate::specs::Json::state_of))]
fn journal_with(alloc: Global, value: &Value, counted: bool) -> Result<Option<Journal>, AllocError>
    ensures { IfOk result (λ o. o ≡ spec.state_of counted (view value.now)) }
{
    let (Some(at), Some(held), Some(listed)) = (
        number(value, "at"),
        value.get("pending"),
        value.get("records"),
    ) else {
        return Ok(None);
    };
    let Some(open) = pending(alloc, held, counted)? else {
        return Ok(None);
    };
    let Some(records) = records(alloc, listed, counted)? else {
        return Ok(None);
    };
    if !is_sound(alloc, &records, at, &open)? {
        return Ok(None);
    }
    Ok(Some(Journal {
        records,
        at: at as usize,
        open,
        alloc,
    }))
}

/// A journal, whose keys are `at`, `pending`, `records` and `version`.
#[tactic(auto, unfolding(crate::specs::Json::journal_of))]
fn journal(alloc: Global, value: &Value) -> Result<Option<Journal>, AllocError>
    ensures { IfOk result (λ o. o ≡ spec.journal_of (view value.now)) }
{
    if !has_keys(value, 4) {
        return Ok(None);
    }
    match number(value, "version") {
        Some(1) => journal_with(alloc, value, false),
        Some(2) => journal_with(alloc, value, true),
        _ => Ok(None),
    }
}

/// The value that a JSON text in UTF-8 is.
fn value_of(alloc: Global, bytes: &[u8]) -> Result<Option<Value>, AllocError>
    ensures { IfOk result (λ o. option_map view o ≡ json_value bytes.now) }
{
    match Value::from_slice(alloc, bytes) {
        Ok(value) => Ok(Some(value)),
        Err(e) if e.is_memory() => Err(AllocError),
        Err(_) => Ok(None),
    }
}

/// The journal that bytes are, read to a tree of values.
fn by_tree(alloc: Global, bytes: &[u8]) -> Result<Option<Journal>, AllocError>
    ensures { IfOk result (λ o. o ≡ spec.journal_in bytes.now) }
{
    match value_of(alloc, bytes)? {
        Some(value) => journal(alloc, &value),
        None => Ok(None),
    }
}

impl Journal {
    /// The journal that bytes are as JSON (RFC 8259), of version 1 or 2. Refused as `BadJournal`
    /// exactly where they are none.
    pub fn from_json(alloc: Global, bytes: &[u8]) -> Result<Journal, JournalError>
        ensures ok { IfOk result (λ j. spec.journal_in bytes.now ≡ Some j) }
        ensures err { IfErr result (λ e. ErrorIs e (if_journal (spec.journal_in bytes.now))) }
    {
        if let Some(journal) = scanned(alloc, bytes)? {
            return Ok(journal);
        }
        match by_tree(alloc, bytes)? {
            Some(journal) => Ok(journal),
            None => Err(JournalError::Fault(JournalFault::BadJournal)),
        }
    }
}
