//! Whether a move over the records of a journal can be made, and the text to which it leads.
ghost use Rattle.std.specs.Prelude.{◌≡◌, None, Some, OnOk, IfOk, IfErr};
ghost use Rattle.yq_journal.{specs.Refusals.{ErrorIs, no_way, way_fault, MemoryOnlyIf, HasWay, lead_fault}, specs.State.moved_text};

use crate::applies::stands_before;
use crate::{JournalError, JournalFault, MAX_RECORDS, Move, Record, lead};
use std::alloc::Global;

/// How many bytes a sole splice may take out that are compared one by one.
const FEW_BYTES: usize = 4096;

/// The fault of a move that has no room, or no record to move over.
pub(crate) fn obstacle(records: &[Record], at: usize, step: &Move) -> Option<JournalFault>
    ensures { result ≡ no_way records.now at step.now }
{
    match step {
        Move::Edit(_) if at >= MAX_RECORDS => Some(JournalFault::JournalFull),
        Move::Undo if at == 0 => Some(JournalFault::NothingToUndo),
        Move::Redo if at >= records.len() => Some(JournalFault::NothingToRedo),
        _ => None,
    }
}

/// The text that a move leads to, or its first fault.
pub(crate) fn target(
    alloc: Global,
    records: &[Record],
    at: usize,
    step: &Move,
    text: &[u8],
) -> Result<Vec<u8>, JournalError>
    ensures ok { IfOk result (λ v. moved_text records.now at step.now text.now ≡ Some v.items) }
    ensures free { OnOk result (way_fault records.now at step.now text.now ≡ None) }
    ensures err { IfErr result (λ e. ErrorIs e (way_fault records.now at step.now text.now)) }
    ensures memory { MemoryOnlyIf result (HasWay records.now at step.now) }
{
    if let Some(fault) = obstacle(records, at, step) {
        return Err(JournalError::Fault(fault));
    }
    lead(alloc, records, at, step, text)
}

/// Whether a record has one splice, which takes out few bytes.
fn is_small(patch: &Record) -> bool {
    match patch.splices.as_slice() {
        [splice] => splice.old.len() <= FEW_BYTES,
        _ => false,
    }
}

/// Whether a move leads to a text. This isn't made for a small edit, of 16 MB as of 1 KB.
fn check_lead(
    alloc: Global,
    records: &[Record],
    at: usize,
    step: &Move,
    text: &[u8],
) -> Result<(), JournalError>
    ensures free { OnOk result (lead_fault records.now at step.now text.now ≡ None) }
    ensures err { IfErr result (λ e. ErrorIs e (lead_fault records.now at step.now text.now)) }
{
    match step {
        Move::Edit(patch) if is_small(patch) => {
            if stands_before(patch, text) {
                Ok(())
            } else {
                Err(JournalError::Fault(JournalFault::DoesNotStand))
            }
        }
        _ => {
            let _target = lead(alloc, records, at, step, text)?;
            Ok(())
        }
    }
}

/// The first fault of a move on a text, where no move is open.
pub(crate) fn check_way(
    alloc: Global,
    records: &[Record],
    at: usize,
    step: &Move,
    text: &[u8],
) -> Result<(), JournalError>
    ensures free { OnOk result (way_fault records.now at step.now text.now ≡ None) }
    ensures err { IfErr result (λ e. ErrorIs e (way_fault records.now at step.now text.now)) }
    ensures memory { MemoryOnlyIf result (HasWay records.now at step.now) }
{
    if let Some(fault) = obstacle(records, at, step) {
        return Err(JournalError::Fault(fault));
    }
    check_lead(alloc, records, at, step, text)
}
