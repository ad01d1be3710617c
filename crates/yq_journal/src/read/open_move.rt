//! Open moves from their values.
ghost use Rattle.std.specs.Prelude.{◌≡◌, Some, IfOk};
ghost use Rattle.serde_json.specs.View.{view};
ghost use Rattle.yq_journal.specs.Json as spec;

use super::edits::record;
use super::fields::{bytes, has_keys, text};
use crate::journal::Open;
use crate::ways::target;
use crate::{JournalError, Move, Record};
use serde_json::Value;
use std::alloc::{AllocError, Global};

/// The move of a kind that has no record.
fn bare_move(kind: &str) -> Option<Move>
    ensures { result ≡ spec.bare_move kind.now }
{
    match kind {
        "undo" => Some(Move::Undo),
        "redo" => Some(Move::Redo),
        _ => None,
    }
}

/// The move of a kind, with the value of its record.
#[tactic(auto, unfolding(crate::specs::Json::move_of))]
fn move_with(
    alloc: Global,
    kind: &str,
    value: &Value,
    counted: bool,
) -> Result<Option<Move>, AllocError>
    ensures { IfOk result (λ o. o ≡ spec.move_of counted kind.now (view value.now)) }
{
    if kind == "edit" {
        return match record(alloc, value, counted)? {
            Some(record) => Ok(Some(Move::Edit(record))),
            None => Ok(None),
        };
    }
    match value {
        Value::Null => Ok(bare_move(kind)),
        _ => Ok(None),
    }
}

/// The move under the keys `kind` and `record`.
fn move_at(alloc: Global, value: &Value, counted: bool) -> Result<Option<Move>, AllocError>
    ensures { IfOk result (λ o. o ≡ spec.move_at counted (view value.now)) }
{
    let (Some(kind), Some(held)) = (text(value, "kind"), value.get("record")) else {
        return Ok(None);
    };
    move_with(alloc, kind, held, counted)
}

/// An open move, whose keys are `from`, `kind` and `record`.
#[tactic(auto, unfolding(crate::specs::Json::open_move_of))]
fn open(alloc: Global, value: &Value, counted: bool) -> Result<Option<Open>, AllocError>
    ensures { IfOk result (λ o. o ≡ spec.open_move_of counted (view value.now)) }
{
    if !has_keys(value, 3) {
        return Ok(None);
    }
    let Some(step) = move_at(alloc, value, counted)? else {
        return Ok(None);
    };
    let Some(from) = bytes(alloc, value, "from")? else {
        return Ok(None);
    };
    Ok(Some(Open { step, from }))
}

/// An open move or, for null, none.
pub(super) fn pending(
    alloc: Global,
    value: &Value,
    counted: bool,
) -> Result<Option<Option<Open>>, AllocError>
    ensures { IfOk result (λ o. o ≡ spec.pending_of counted (view value.now)) }
{
    if matches!(value, Value::Null) {
        return Ok(Some(None));
    }
    match open(alloc, value, counted)? {
        Some(open) => Ok(Some(Some(open))),
        None => Ok(None),
    }
}

/// Whether an open move applies to its text and changes it.
pub(super) fn can_move(
    alloc: Global,
    records: &[Record],
    at: usize,
    open: &Open,
) -> Result<bool, AllocError>
    ensures { IfOk result (λ b. b ≡ spec.can_move records.now at (Some open.now)) }
{
    match target(alloc, records, at, &open.step, &open.from) {
        Ok(patched) => Ok(patched.as_slice() != open.from.as_slice()),
        Err(JournalError::Memory) => Err(AllocError),
        Err(JournalError::Fault(_)) => Ok(false),
    }
}
