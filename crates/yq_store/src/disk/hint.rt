//! What a user may do where a journal can't be read or written.

use std::fmt::{self, Display, Formatter, Write};
use std::io;
use std::io::ErrorKind;

/// What a user may do where a journal can't be read or written. Its text is the line that the program prints.
#[derive(Clone, Copy, PartialEq, Eq)]
pub enum JournalHint {
    /// Its name has more bytes than a name may have.
    LongName,
    /// It is larger than a journal may be.
    Large,
}

impl Display for JournalHint {
    fn fmt<W: Write>(&self, f: &mut Formatter<W>) -> fmt::Result {
        f.write_str(match self {
            JournalHint::LongName => "the journal's name is too long: --journal PATH gives another",
            JournalHint::Large => {
                "the journal is too large: YQ_JOURNAL_LIMIT=N allows N MiB (64 without it)"
            }
        })
    }
}

/// What a user may do after what came of reading or writing a journal.
pub fn hint_of<T>(done: &io::Result<T>) -> Option<JournalHint> {
    match done {
        Ok(_) => None,
        Err(e) => match e.kind() {
            ErrorKind::InvalidFilename => Some(JournalHint::LongName),
            ErrorKind::FileTooLarge => Some(JournalHint::Large),
            _ => None,
        },
    }
}
