//! Why a journal refuses.

use thiserror::Error;
use yq_failure::Failure;

/// Why a call of a journal is refused.
#[derive(Clone, Copy, Debug, PartialEq, Eq, Error)]
pub enum JournalFault {
    /// No record is done.
    #[error("J1 nothing to undo")]
    NothingToUndo,
    /// No record is undone.
    #[error("J2 nothing to redo")]
    NothingToRedo,
    /// The text doesn't have the length or the bytes that a record names.
    #[error("J3 does not stand")]
    DoesNotStand,
    /// The bytes are no journal.
    #[error("J4 bad journal")]
    BadJournal,
    /// A move is open.
    #[error("J5 unsettled")]
    Unsettled,
    /// The cursor is at the last record that a journal may hold.
    #[error("J6 journal full")]
    JournalFull,
    /// So many records can't be joined.
    #[error("J7 bad count")]
    BadCount,
}

/// The error of a call: a fault, or that memory ran out.
pub type JournalError = Failure<JournalFault>;
