//! Undo and redo.

use std::alloc::Global;
use yq_journal::{Journal, JournalError, Move};

/// A step along the edits that were made.
#[derive(Clone, Copy, Debug, PartialEq, Eq)]
pub enum Direction {
    Undo,
    Redo,
}

impl Direction {
    ghost use Rattle.std.specs.Prelude.{◌≡◌, IfOk, IfErr, OnOk, OnErr};
    ghost use Rattle.yq_journal.specs.Refusals.{ErrorIs, move_fault};
    ghost use Rattle.yq_journal.specs.State.{journal_after};
    ghost use Rattle.yq_history.specs.Directions.{walk_move};
    ghost use Rattle.yq_journal.specs.State.{MovesTo};

    /// The journal's move.
    pub fn step(self) -> Move
        ensures { result ≡ walk_move self }
    {
        match self {
            Direction::Undo => Move::Undo,
            Direction::Redo => Move::Redo,
        }
    }

    /// Makes the move at once, and gives the text that it leads to.
    pub fn make(self, journal: &mut Journal, text: &[u8]) -> Result<Vec<u8>, JournalError>
        ensures ok { IfOk result (λ v. MovesTo journal.old (walk_move self) text.now v.items) }
        ensures moved { OnOk result (journal.new ≡ journal_after journal.old (walk_move self)) }
        ensures fault { IfErr result (λ e. ErrorIs e
            (move_fault journal.old (walk_move self) text.now)) }
        ensures err { OnErr result (journal.new ≡ journal.old) }
    {
        match self {
            Direction::Undo => journal.undo(text),
            Direction::Redo => journal.redo(text),
        }
    }
}
