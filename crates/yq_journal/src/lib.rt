//! The journal of a text: records of its edits, done and undone, with a cursor and an open move.
#![tactic(auto)]

mod applies;
mod bare;
mod fault;
mod journal;
mod laws;
mod lengths;
mod moves;
mod opening;
mod piece_table;
mod quoting;
mod read;
mod record;
mod squash;
mod ways;
mod write;

pub use applies::{stands_after, stands_before};
pub use bare::is_bare_below;
pub use fault::{JournalError, JournalFault};
pub use journal::Journal;
pub use laws::{
    faults_are_of_history, moves_go_on, open_moves_describe, settling_rests, squashes_go_on,
};
pub use lengths::leads;
pub use moves::{MAX_RECORDS, Move, lead, make};
pub use quoting::push_quoted;
pub use record::{Record, record_inverts, redo_record, undo_record};
