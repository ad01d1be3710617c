//! What is reported next to the answer to a command.

use std::fmt::{self, Display, Formatter, Write};
use yq_journal::MAX_RECORDS;
use yq_store::JournalHint;

/// From how many records on a listing says how many there are.
const MANY_RECORDS: u64 = 4_000;

/// What is reported next to the answer to a command.
#[derive(Clone, Copy)]
pub enum Hint {
    /// Why a journal was neither read nor written.
    Journal(JournalHint),
    /// How many records the journal has, which are almost as many as it may have.
    Records(u64),
}

impl Hint {
    /// What is reported next to a listing of so many records.
    pub fn of_records(records: u64) -> Option<Hint> {
        if records < MANY_RECORDS {
            return None;
        }
        Some(Hint::Records(records))
    }
}

impl Display for Hint {
    fn fmt<W: Write>(&self, f: &mut Formatter<W>) -> fmt::Result {
        match self {
            Hint::Journal(hint) => Display::fmt(hint, f),
            Hint::Records(records) => write!(
                f,
                "the journal has {records} of {MAX_RECORDS} records; `squash` joins some of them"
            ),
        }
    }
}
