//! Moves over the records of a journal.
ghost use Rattle.std.specs.Prelude.{◌≡◌, ◌≤◌, None, Some, OnOk, IfOk, IfErr, length};
ghost use Rattle.yq_journal.{specs.Refusals.{ErrorIs, no_way, lead_fault}, specs.State.{moved_text, settled_state, AreKept, moved_state}};

use crate::fault::{JournalError, JournalFault};
use crate::record::{Record, redo_record, undo_record};
use std::alloc::Global;

/// How many records a journal may hold.
pub const MAX_RECORDS: usize = 4096;

/// A step through a history.
#[derive(Drop)]
pub enum Move {
    /// A new edit.
    Edit(Record),
    /// Back over the last done record.
    Undo,
    /// On over the first undone record.
    Redo,
}

/// The text to which a move leads.
pub fn lead(
    alloc: Global,
    records: &[Record],
    at: usize,
    step: &Move,
    text: &[u8],
) -> Result<Vec<u8>, JournalError>
    ensures ok { IfOk result (λ v. moved_text records.now at step.now text.now ≡ Some v.items) }
    ensures err { IfErr result (λ e. ErrorIs e (lead_fault records.now at step.now text.now)) }
{
    let fault = JournalError::Fault(JournalFault::DoesNotStand);
    match step {
        Move::Edit(patch) => redo_record(alloc, patch, text),
        Move::Undo => {
            if at == 0 {
                return Err(fault);
            }
            match records.get(at - 1) {
                Some(patch) => undo_record(alloc, patch, text),
                None => Err(fault),
            }
        }
        Move::Redo => match records.get(at) {
            Some(patch) => redo_record(alloc, patch, text),
            None => Err(fault),
        },
    }
}

/// Makes a move that has room: an edit drops the records past the cursor.
pub fn make(records: &mut Vec<Record>, at: &mut usize, step: Move) -> Result<(), Move>
    requires within { at.old ≤ length records.old.items }
    requires room { no_way records.old.items at.old step ≡ None }
    ensures ok { OnOk result (settled_state records.new at.new ≡ moved_state records.old at.old step) }
    ensures err { IfErr result (λ back. (back ≡ step) × AreKept records.old records.new at.old at.new) }
    ensures within { at.new ≤ length records.new.items }
    ensures limit { length records.old.items ≤ MAX_RECORDS →
        length records.new.items ≤ MAX_RECORDS }
{
    match step {
        Move::Undo => *at -= 1,
        Move::Redo => *at += 1,
        Move::Edit(patch) => {
            if records.reserve(1).is_err() {
                return Err(Move::Edit(patch));
            }
            records.truncate(*at);
            match records.push(patch) {
                Ok(()) => *at += 1,
                Err(back) => return Err(Move::Edit(back.value)),
            }
        }
    }
    Ok(())
}
