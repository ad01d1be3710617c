//! A record of an edit, and what it does to a text.
ghost use Rattle.std.{specs.Prelude.{◌≡◌, ◌↔◌, List, Some, IfOk, IfErr, ℕ}, specs.String.string_bytes};
ghost use Rattle.yq_text.specs.Splice.{lengths_done};
ghost use Rattle.yq_journal.{specs.Record.{Record, done, undone, record_with}, specs.Refusals.{ErrorIs, if_moves}, specs.Added.HoldsParts};

use crate::fault::{JournalError, JournalFault};
use crate::piece_table::spliced;
use std::alloc::Global;
use std::marker::Model;
use yq_text::Splice;

/// What an edit did: its expression, its splices in order, and the lengths
/// in bytes of the texts before and after it.
#[derive(Drop)]
pub struct Record {
    pub expr: String,
    pub splices: Vec<Splice>,
    pub before_len: u64,
    pub after_len: u64,
    /// How many edits it means.
    pub count: u64,
    /// The text that is written of it, where it was read so.
    pub(crate) written: Option<Vec<u8>>,
}

impl Model for Record {
    ghost use Rattle.std.specs.String.{string_bytes};
    ghost use Rattle.yq_journal.{specs.Added.HoldsParts, specs.Record.Record};

    ghost Value = { Record };

    ghost view = { λ r. record { expr = string_bytes r.expr; changes = r.splices.items; before_len = r.before_len; after_len = r.after_len; count = r.count } };

    ghost invariant = { λ r. HoldsParts r.expr r.splices r.before_len r.after_len r.count r.written };
}

impl Record {
    /// The record of one edit. Each splice must be within the length reached so far, and the lengths
    /// must end at `after_len`.
    pub fn new(expr: String, splices: Vec<Splice>, before_len: u64, after_len: u64) -> Record
        requires { lengths_done splices.items before_len ≡ Some after_len }
        ensures { result ≡ record_with expr splices before_len after_len 1 }
    {
        Record {
            expr,
            splices,
            before_len,
            after_len,
            count: 1,
            written: None,
        }
    }
}

/// The text to which an edit leads from this one. Refused as `DoesNotStand` exactly where its record
/// doesn't apply to it.
pub fn redo_record(alloc: Global, patch: &Record, text: &[u8]) -> Result<Vec<u8>, JournalError>
    ensures ok { IfOk result (λ v. done patch.now text.now ≡ Some v.items) }
    ensures err { IfErr result (λ e. ErrorIs e (if_moves (done patch.now text.now))) }
{
    if text.len() as u64 != patch.before_len {
        return Err(JournalError::Fault(JournalFault::DoesNotStand));
    }
    match spliced(alloc, &patch.splices, false, text)? {
        Some(patched) if patched.len() as u64 == patch.after_len => Ok(patched),
        _ => Err(JournalError::Fault(JournalFault::DoesNotStand)),
    }
}

/// The text from which an edit led to this one. Refused as `DoesNotStand` exactly where its record
/// can't be undone on it.
pub fn undo_record(alloc: Global, patch: &Record, text: &[u8]) -> Result<Vec<u8>, JournalError>
    ensures ok { IfOk result (λ v. undone patch.now text.now ≡ Some v.items) }
    ensures err { IfErr result (λ e. ErrorIs e (if_moves (undone patch.now text.now))) }
{
    if text.len() as u64 != patch.after_len {
        return Err(JournalError::Fault(JournalFault::DoesNotStand));
    }
    let before_len = patch.before_len;
    match spliced(alloc, &patch.splices, true, text)? {
        Some(patched) if patched.len() as u64 == before_len => Ok(patched),
        _ => Err(JournalError::Fault(JournalFault::DoesNotStand)),
    }
}

/// Undoing a record inverts doing it, and doing it inverts undoing it, on every text on which the first
/// is possible.
pub fn record_inverts()
    ensures { (r : Record) (b c : List ℕ) → (done r b ≡ Some c) ↔ (undone r c ≡ Some b) }
{}
