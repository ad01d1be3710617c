//! The text of a journal, written straight into one string.
ghost use Rattle.std.specs.Prelude.{◌≡◌, Some, IfOk, true};
ghost use Rattle.yq_journal.{specs.Added.AddsJson, specs.Json.{move_again, pending_data, pending_of}};
ghost use Rattle.yq_journal.specs.Json as spec;

mod pieces;
mod records;

use crate::Move;
use crate::journal::{Journal, Open};
use pieces::{push_base64, push_number};
use records::{push_record, push_records};
use std::alloc::{AllocError, Global};

/// The kind of a move.
fn kind(step: &Move) -> &'static str
    ensures { result.now ≡ spec.kind_text step.now }
{
    match step {
        Move::Edit(_) => "edit",
        Move::Undo => "undo",
        Move::Redo => "redo",
    }
}

/// Adds the record of a move, null where it has none.
fn push_move(text: &mut String, alloc: Global, step: &Move) -> Result<(), AllocError>
    ensures { AddsJson result text.old text.new spec.move_data (move_again step.now) step.now }
{
    match step {
        Move::Edit(patch) => {
            push_record(text, alloc, patch)?;
            Ok(())
        }
        Move::Undo => {
            text.push_str("null")?;
            Ok(())
        }
        Move::Redo => {
            text.push_str("null")?;
            Ok(())
        }
    }
}

/// Adds an open move. Its base64 is written where it is, and not copied.
fn push_open(text: &mut String, alloc: Global, open: &Open) -> Result<(), AllocError>
    ensures { AddsJson result text.old text.new pending_data (pending_of true) (Some open.now) }
{
    text.push_str("{\"from\":\"")?;
    push_base64(text, &open.from)?;
    text.push_str("\",\"kind\":\"")?;
    text.push_str(kind(&open.step))?;
    text.push_str("\",\"record\":")?;
    push_move(text, alloc, &open.step)?;
    text.push_str("}")?;
    Ok(())
}

/// Adds an open move, null where there is none.
fn push_pending(text: &mut String, alloc: Global, pending: &Option<Open>) -> Result<(), AllocError>
    ensures { AddsJson result text.old text.new spec.pending_data
        (spec.pending_of true) pending.now }
{
    match pending {
        Some(open) => push_open(text, alloc, open),
        None => {
            text.push_str("null")?;
            Ok(())
        }
    }
}

/// How many bytes the base64 of an open move's text takes, with a few for each record.
fn room_of(pending: &Option<Open>, records: usize) -> usize {
    let from = match pending {
        Some(open) => open.from.len(),
        None => 0,
    };
    let groups = from / 3;
    groups
        .saturating_add(2)
        .saturating_mul(4)
        .saturating_add(records.saturating_mul(192))
        .saturating_add(512)
}

impl Journal {
    /// Adds the journal.
    fn push_to(&self, text: &mut String, alloc: Global) -> Result<(), AllocError>
        ensures { AddsJson result text.old text.new spec.journal_data spec.journal_of self.now }
    {
        push_number(text, "{\"at\":", self.at as u64)?;
        text.push_str(",\"pending\":")?;
        push_pending(text, alloc, &self.open)?;
        text.push_str(",\"records\":")?;
        push_records(text, alloc, &self.records)?;
        text.push_str(",\"version\":2}")?;
        Ok(())
    }

    /// The journal as JSON of version 2: without spaces, with the keys of each object in byte order,
    /// and a line feed at the end.
    pub fn to_json(&self, alloc: Global) -> Result<Vec<u8>, AllocError>
        ensures text { IfOk result (λ v. v.items ≡ spec.journal_text self.now) }
        ensures reads_back { IfOk result (λ v. spec.journal_in v.items ≡ Some self.now) }
    {
        let room = room_of(&self.open, self.records.len());
        let mut text = String::with_capacity(alloc, room)?;
        self.push_to(&mut text, alloc)?;
        text.push_str("\n")?;
        Ok(text.into_bytes())
    }
}
