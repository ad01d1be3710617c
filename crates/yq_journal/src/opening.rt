//! The open move of a journal: opened on a text, and settled next to it or the text to which it leads.
ghost use Rattle.std.specs.Prelude.{◌≡◌, ◌≢◌, None, Some, IfErr, OnOk, OnErr, IsNone, IsOk};
ghost use Rattle.yq_journal.specs.Refusals.{ErrorIs, move_fault, MemoryOnlyIf, UnsettledOnlyIf, MayBegin};
ghost use Rattle.yq_journal.specs.State.{moved_text, with_move, settled_beside, OpenLeads, LeadsElsewhere, MovesTo};
ghost use Rattle.yq_failure.specs.declared.failure.Failure.TheVariants as failure;

use crate::journal::{Journal, Open};
use crate::ways::{check_way, obstacle};
use crate::{JournalError, JournalFault, Move, Record, lead, make};
use std::alloc::Global;

/// Whether an open move leads to this text: refused as `Unsettled` where it doesn't.
fn leads_to(
    alloc: Global,
    records: &[Record],
    at: usize,
    open: &Open,
    text: &[u8],
) -> Result<(), JournalError>
    ensures ok { OnOk result (moved_text records.now at open.now.step open.now.from ≡ Some text.now) }
    ensures err { UnsettledOnlyIf result (LeadsElsewhere records.now at open.now text.now) }
{
    match lead(alloc, records, at, &open.step, &open.from) {
        Ok(patched) if patched.as_slice() == text => Ok(()),
        Err(JournalError::Memory) => Err(JournalError::Memory),
        _ => Err(JournalError::Fault(JournalFault::Unsettled)),
    }
}

impl Journal {
    /// The first fault of a move that is to be opened on a text. The text to which it leads is not kept.
    fn check_start(&self, step: &Move, text: &[u8]) -> Result<(), JournalError>
        ensures free { OnOk result (move_fault self.now step.now text.now ≡ None) }
        ensures fault { IfErr result (λ e. ErrorIs e (move_fault self.now step.now text.now)) }
        ensures memory { MemoryOnlyIf result (MayBegin self.now step.now) }
    {
        if self.open.is_some() {
            return Err(JournalError::Fault(JournalFault::Unsettled));
        }
        check_way(self.alloc, &self.records, self.at, step, text)
    }

    /// Opens a move, and keeps the whole text from which it starts.
    ///
    /// Refused, with the move handed back, first to last: as `Unsettled` if a move is open, as
    /// `JournalFull`, as `NothingToUndo` or `NothingToRedo`, as `DoesNotStand`. All but the last are
    /// found before any memory is taken.
    pub fn start(&mut self, step: Move, text: &[u8]) -> Result<(), (Move, JournalError)>
        requires { moved_text self.old.records self.old.at step text.now ≢ Some text.now }
        ensures free { OnOk result (move_fault self.old step text.now ≡ None) }
        ensures ok { OnOk result (self.new ≡ with_move self.old step text.now) }
        ensures fault { IfErr result (λ e. ErrorIs e.1 (move_fault self.old step text.now)) }
        ensures memory { IfErr result (λ e. e.1 ≡ failure.Memory → MayBegin self.old step) }
        ensures err { IfErr result (λ e. (e.0 ≡ step) × (self.new ≡ self.old)) }
    {
        if let Err(error) = self.check_start(&step, text) {
            return Err((step, error));
        }
        match text.to_vec(self.alloc) {
            Err(_) => Err((step, JournalError::Memory)),
            Ok(from) => {
                self.open = Some(Open { step, from });
                Ok(())
            }
        }
    }

    /// Opens a move that is known to lead to another text, as [`Journal::start`] does, but without
    /// making that text again and without a copy of the one from which it starts.
    pub fn start_known(
        &mut self,
        step: Move,
        text: Vec<u8>,
        _new: &[u8],
    ) -> Result<(), JournalError>
        requires moves { MovesTo self.old step text.items _new.now }
        requires changes { _new.now ≢ text.items }
        ensures free { OnOk result (move_fault self.old step text.items ≡ None) }
        ensures ok { OnOk result (self.new ≡ with_move self.old step text.items) }
        ensures fault { IfErr result (λ e. ErrorIs e (move_fault self.old step text.items)) }
        ensures memory { MemoryOnlyIf result (MayBegin self.old step) }
        ensures err { OnErr result (self.new ≡ self.old) }
    {
        match obstacle(&self.records, self.at, &step) {
            _ if self.open.is_some() => Err(JournalError::Fault(JournalFault::Unsettled)),
            Some(fault) => Err(JournalError::Fault(fault)),
            None => {
                self.open = Some(Open { step, from: text });
                Ok(())
            }
        }
    }

    /// Settles an open move by the file's text: drops the move if it starts from that text, and
    /// finishes it if it leads to that text. Refused as `Unsettled` for any other text.
    ///
    /// With no open move it does nothing, and takes no memory.
    pub fn settle(&mut self, text: &[u8]) -> Result<(), JournalError>
        ensures ok { OnOk result (settled_beside self.old text.now ≡ Some self.new) }
        ensures at_rest { IsNone self.old.pending → IsOk result }
        ensures fault { UnsettledOnlyIf result (settled_beside self.old text.now ≡ None) }
        ensures err { OnErr result (self.new ≡ self.old) }
    {
        let Some(held) = &self.open else {
            return Ok(());
        };
        if held.from.as_slice() == text {
            self.open = None;
            return Ok(());
        }
        leads_to(self.alloc, &self.records, self.at, held, text)?;
        self.finish(text)
    }

    /// Finishes an open move that is known to lead to this text, as [`Journal::settle`] does, but
    /// without making that text again to compare it.
    pub fn finish(&mut self, _text: &[u8]) -> Result<(), JournalError>
        requires { OpenLeads self.old _text.now }
        ensures ok { OnOk result (settled_beside self.old _text.now ≡ Some self.new) }
        ensures fault { IfErr result (λ e. e ≡ failure.Memory) }
        ensures err { OnErr result (self.new ≡ self.old) }
    {
        if let Some(taken) = self.open.take() {
            let Open { step, from } = taken;
            if let Err(step) = make(&mut self.records, &mut self.at, step) {
                self.open = Some(Open { step, from });
                return Err(JournalError::Memory);
            }
        }
        Ok(())
    }
}
