//! Calls on a journal that take memory, and the lines of its faults.

use std::alloc::Global;
use yq_journal::{Journal, JournalFault, Move, Record, redo_record, undo_record};

/// A call on a journal: one of two records or one of one record is read; it is moved on a text, written; its first record is undone or redone on one;
/// or the first record of a new one is added.
#[derive(Clone, Copy)]
pub enum OnJournal {
    Read,
    ReadOne,
    Undo,
    Redo,
    UndoRecord,
    RedoRecord,
    StartUndo,
    StartRedo,
    Settle,
    Squash(u64),
    Write,
    Push,
}

/// Two edits of a digit, both done.
const TWO: &str =
    r#"{"at":2,"pending":null,"records":[{"after_len":5,"before_len":5,"count":1,"expr":".n = 2","splices":[{"at":3,"new":"Mg==","old":"MQ=="}]},{"after_len":5,"before_len":5,"count":1,"expr":".n = 3","splices":[{"at":3,"new":"Mw==","old":"Mg=="}]}],"version":2}
"#;

/// An edit of a port, done.
const ONE: &str =
    r#"{"at":1,"pending":null,"records":[{"after_len":28,"before_len":28,"count":1,"expr":".port = 9090","splices":[{"at":23,"new":"OTA5MA==","old":"ODA4MA=="}]}],"version":2}
"#;

/// Reads a journal in the place of one.
fn is_read(alloc: Global, journal: &mut Journal, text: &str) -> bool {
    match Journal::from_json(alloc, text.as_bytes()) {
        Ok(read) => {
            *journal = read;
            true
        }
        Err(_) => false,
    }
}

/// Opens a move that changes a text, of which the journal takes a copy, or of a redo the one that is given.
fn is_started(
    alloc: Global,
    journal: &mut Journal,
    step: Move,
    text: &[u8],
    is_kept: bool,
) -> bool {
    let Ok(led) = journal.target(alloc, &step, text) else {
        return false;
    };
    if led.as_slice() == text {
        return false;
    }
    if !is_kept {
        return journal.start(step, text).is_ok();
    }
    match Vec::from_slice(alloc, text) {
        Ok(text) => journal.start_known(step, text, &led).is_ok(),
        Err(_) => false,
    }
}

/// Whether the call is carried out: not where memory ran out.
fn is_called(alloc: Global, journal: &mut Journal, call: OnJournal, text: &[u8]) -> bool {
    match call {
        OnJournal::Read => is_read(alloc, journal, TWO),
        OnJournal::ReadOne => is_read(alloc, journal, ONE),
        OnJournal::Undo => journal.undo(text).is_ok(),
        OnJournal::Redo => journal.redo(text).is_ok(),
        OnJournal::UndoRecord if journal.len() > 0 => {
            undo_record(alloc, journal.record(0), text).is_ok()
        }
        OnJournal::RedoRecord if journal.len() > 0 => {
            redo_record(alloc, journal.record(0), text).is_ok()
        }
        OnJournal::StartUndo => { is_started(alloc, journal, Move::Undo, text, false) }
        OnJournal::StartRedo => is_started(alloc, journal, Move::Redo, text, true),
        OnJournal::Settle => journal.settle(text).is_ok(),
        OnJournal::Squash(count) => journal.squash(count).is_ok(),
        OnJournal::Write => journal.to_json(alloc).is_ok(),
        OnJournal::Push => {
            let added = Record::new(String::new(alloc), Vec::new(alloc), 5, 5);
            Journal::new(alloc).push(added).is_ok()
        }
        _ => false,
    }
}

/// The journal's cursor after a call: none where memory ran out.
pub fn called(alloc: Global, journal: &mut Journal, call: OnJournal, text: &[u8]) -> Option<usize> {
    if is_called(alloc, journal, call, text) {
        Some(journal.at())
    } else {
        None
    }
}

/// The line of each fault.
static FAULTS: [(JournalFault, &str); 7] = [
    (JournalFault::NothingToUndo, "J1 nothing to undo"),
    (JournalFault::NothingToRedo, "J2 nothing to redo"),
    (JournalFault::DoesNotStand, "J3 does not stand"),
    (JournalFault::BadJournal, "J4 bad journal"),
    (JournalFault::Unsettled, "J5 unsettled"),
    (JournalFault::JournalFull, "J6 journal full"),
    (JournalFault::BadCount, "J7 bad count"),
];

/// Whether the line of a fault is this one.
fn has_line(alloc: Global, fault: JournalFault, line: &str) -> bool {
    match format!(in alloc; "{fault}") {
        Ok(message) => message.as_str() == line,
        Err(_) => false,
    }
}

#[test]
fn lines_of_faults(rt: HostRuntime) {
    'faults: for (fault, line) in &FAULTS {
        assert!(rt; has_line(rt.alloc(), *fault, line), "{line}");
    }
}
