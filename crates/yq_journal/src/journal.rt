//! The journal: records, a cursor, and perhaps an open move.
ghost use Rattle.std.specs.Prelude.{◌≡◌, ◌<◌, None, Some, IfErr, OnOk, OnErr, length, slice_get};
ghost use Rattle.yq_journal.specs.Refusals.{ErrorIs, Reports, move_fault, push_fault, squash_fault, MemoryOnlyIf, HasWay, MayBegin};
ghost use Rattle.yq_journal.{specs.Refusals.fault_at_rest, specs.State.{empty_state, journal_after, squashed, GivesMoved}};

use crate::squash::{join_last, replace_run};
use crate::ways::target;
use crate::{JournalError, JournalFault, MAX_RECORDS, Move, Record, make};
use std::alloc::Global;
use std::marker::Model;

/// A move that is open, and the whole text from which it starts.
#[derive(Drop)]
pub(crate) struct Open {
    pub(crate) step: Move,
    pub(crate) from: Vec<u8>,
}

impl Model for Open {
    ghost use Rattle.yq_journal.specs.State.{Pending};

    ghost Value = { Pending };

    ghost view = { λ o. record { step = o.step; from = o.from.items } };
}

/// Records of edits, oldest first, a cursor, and perhaps an open move.
#[derive(Drop)]
pub struct Journal {
    pub(crate) records: Vec<Record>,
    pub(crate) at: usize,
    pub(crate) open: Option<Open>,
    pub(crate) alloc: Global,
}

impl Model for Journal {
    ghost use Rattle.yq_journal.specs.Refusals.{IsSound};
    ghost use Rattle.yq_journal.specs.State.{State, state};

    ghost Value = { State };

    ghost view = { λ j. state j.records.items j.at j.open };

    ghost invariant = { λ j. IsSound (state j.records.items j.at j.open) };
}

impl Journal {
    /// The journal of a text that was never edited.
    pub fn new(alloc: Global) -> Journal
        ensures { result ≡ empty_state }
    {
        Journal {
            records: Vec::new(alloc),
            at: 0,
            open: None,
            alloc,
        }
    }

    /// The cursor: how many records are done.
    pub fn at(&self) -> usize
        ensures { result ≡ self.now.at }
    {
        self.at
    }

    /// How many records there are, done and undone.
    pub fn len(&self) -> usize
        ensures { result ≡ length self.now.records }
    {
        self.records.len()
    }

    /// The record of this number, counted from 0, oldest first.
    pub fn record(&self, i: usize) -> &Record
        requires { i < length self.now.records }
        ensures { slice_get self.now.records i ≡ Some result.now }
    {
        &self.records[i]
    }

    /// Adds the record of an edit, and drops the undone ones.
    ///
    /// Refused, with the record handed back, first to last: as `Unsettled` if a move is open; as
    /// `JournalFull` if the cursor is at the last record that there may be. Out of memory is answered
    /// only if neither is so.
    pub fn push(&mut self, added: Record) -> Result<(), (Record, JournalError)>
        ensures free { OnOk result (push_fault self.old added ≡ None) }
        ensures ok { OnOk result (self.new ≡ journal_after self.old (Move.Edit added)) }
        ensures fault { IfErr result (λ e. Reports e.1 (push_fault self.old added)) }
        ensures err { IfErr result (λ e. (e.0 ≡ added) × (self.new ≡ self.old)) }
    {
        if self.open.is_some() {
            return Err((added, JournalError::Fault(JournalFault::Unsettled)));
        }
        if self.at >= MAX_RECORDS {
            return Err((added, JournalError::Fault(JournalFault::JournalFull)));
        }
        match make(&mut self.records, &mut self.at, Move::Edit(added)) {
            Err(Move::Edit(back)) => Err((back, JournalError::Memory)),
            _ => Ok(()),
        }
    }

    /// Moves the cursor back over a record, and gives the text before that edit.
    ///
    /// Refused, first to last: as `Unsettled` if a move is open, as `NothingToUndo`, as `DoesNotStand`.
    pub fn undo(&mut self, text: &[u8]) -> Result<Vec<u8>, JournalError>
        ensures free { OnOk result (move_fault self.old Move.Undo text.now ≡ None) }
        ensures ok { GivesMoved result self.old Move.Undo text.now }
        ensures moved { OnOk result (self.new ≡ journal_after self.old Move.Undo) }
        ensures fault { IfErr result (λ e. ErrorIs e (move_fault self.old Move.Undo text.now)) }
        ensures memory { MemoryOnlyIf result (MayBegin self.old Move.Undo) }
        ensures err { OnErr result (self.new ≡ self.old) }
    {
        if self.open.is_some() {
            return Err(JournalError::Fault(JournalFault::Unsettled));
        }
        let patched = target(self.alloc, &self.records, self.at, &Move::Undo, text)?;
        self.at -= 1;
        Ok(patched)
    }

    /// Moves the cursor forward over a record, and gives the text after that edit.
    ///
    /// Refused, first to last: as `Unsettled` if a move is open, as `NothingToRedo`, as `DoesNotStand`.
    pub fn redo(&mut self, text: &[u8]) -> Result<Vec<u8>, JournalError>
        ensures free { OnOk result (move_fault self.old Move.Redo text.now ≡ None) }
        ensures ok { GivesMoved result self.old Move.Redo text.now }
        ensures moved { OnOk result (self.new ≡ journal_after self.old Move.Redo) }
        ensures fault { IfErr result (λ e. ErrorIs e (move_fault self.old Move.Redo text.now)) }
        ensures memory { MemoryOnlyIf result (MayBegin self.old Move.Redo) }
        ensures err { OnErr result (self.new ≡ self.old) }
    {
        if self.open.is_some() {
            return Err(JournalError::Fault(JournalFault::Unsettled));
        }
        let patched = target(self.alloc, &self.records, self.at, &Move::Redo, text)?;
        self.at += 1;
        Ok(patched)
    }

    /// The text to which a move leads, if no move is open.
    ///
    /// Refused, first to last: as `JournalFull`, as `NothingToUndo` or `NothingToRedo`, as
    /// `DoesNotStand`.
    pub fn target(&self, alloc: Global, step: &Move, text: &[u8]) -> Result<Vec<u8>, JournalError>
        ensures ok { GivesMoved result self.now step.now text.now }
        ensures free { OnOk result (fault_at_rest self.now step.now text.now ≡ None) }
        ensures err { IfErr result (λ e. ErrorIs e (fault_at_rest self.now step.now text.now)) }
        ensures memory { MemoryOnlyIf result (HasWay self.now.records self.now.at step.now) }
    {
        target(alloc, &self.records, self.at, step, text)
    }

    /// Joins the last `n` done records into one.
    ///
    /// Refused, first to last: as `Unsettled` if a move is open; as `BadCount` if `n` is 0 or more than
    /// the done records, or if the lengths of neighbouring records differ. Out of memory is answered
    /// only if neither is so.
    pub fn squash(&mut self, n: u64) -> Result<(), JournalError>
        ensures free { OnOk result (squash_fault self.old n ≡ None) }
        ensures ok { OnOk result (self.new ≡ squashed self.old n) }
        ensures fault { IfErr result (λ e. Reports e (squash_fault self.old n)) }
        ensures err { OnErr result (self.new ≡ self.old) }
    {
        if self.open.is_some() {
            return Err(JournalError::Fault(JournalFault::Unsettled));
        }
        let joined = join_last(self.alloc, &self.records, self.at, n)?;
        let start = self.at - n as usize;
        replace_run(&mut self.records, start, self.at, joined);
        self.at = start + 1;
        Ok(())
    }
}
