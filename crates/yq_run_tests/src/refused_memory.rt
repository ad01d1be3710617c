//! Each growth of commands refused in turn, in one list and command by command: nothing is run, or a command is
//! refused for lack of memory. The file stays whole, and all is done once there is memory.

use crate::asked::{FILE, Request, commands, store_with_file};
use std::alloc::Global;
use std::slice;
use std::test::Fail;
use yq_api_tests::hold_memory;
use yq_args::Command;
use yq_fault::Fault;
use yq_journal::JournalFault;
use yq_run::Answer::{Done, Refused};
use yq_run::{Answer, MemoryOut, run_list};
use yq_store::{MemoryStore, Store};

/// A command of each kind.
static LIST: [Request; 7] = [
    Request::Show("."),
    Request::Edit(".n = 2"),
    Request::Edit(".n = 3"),
    Request::Squash(2),
    Request::Undo,
    Request::Redo,
    Request::History,
];

/// The file after each of them, and what it prints.
static DONE: [(&str, &str); 7] = [
    ("n: 1\n", "n: 1\n"),
    ("n: 2\n", ""),
    ("n: 3\n", ""),
    ("n: 3\n", ""),
    ("n: 1\n", ""),
    ("n: 3\n", ""),
    ("n: 3\n", "1 done \".n = 2 | .n = 3\"\n"),
];

/// What all of them print.
const PRINTED: &str = "n: 1\n1 done \".n = 2 | .n = 3\"\n";

/// What came of a run of the list.
#[derive(Clone, Copy, PartialEq, Eq)]
enum Outcome {
    NothingRun,
    SomeRefused,
    AllDone,
    Wrong,
}

/// What answers say: the first that isn't "done" is that memory was refused.
fn outcome_of(answers: &[Answer]) -> Outcome {
    'answers: for answer in answers {
        match answer {
            Done => (),
            Refused(Fault::OutOfMemory | Fault::OutFailed) => return Outcome::SomeRefused,
            _ => return Outcome::Wrong,
        }
    }
    Outcome::AllDone
}

/// Whether the file has this text.
fn holds(store: &MemoryStore, text: &str) -> bool {
    match store.bytes(FILE) {
        Some(bytes) => bytes.as_slice() == text.as_bytes(),
        None => false,
    }
}

/// Runs the list over a store of its own, which has one of the texts of the list after it.
fn run(alloc: Global, commands: &[Command]) -> Outcome {
    let mut store = MemoryStore::new(alloc);
    if store.replace(FILE, b"n: 1\n").is_err() {
        return Outcome::NothingRun;
    }
    let mut out = MemoryOut::new(alloc);
    let Ok(answers) = run_list(alloc, &mut store, &mut out, commands) else {
        return Outcome::NothingRun;
    };
    let found = outcome_of(&answers);
    let is_printed = found != Outcome::AllDone || out.bytes() == PRINTED.as_bytes();
    let is_whole = holds(&store, "n: 1\n") || holds(&store, "n: 2\n") || holds(&store, "n: 3\n");
    if is_printed && is_whole {
        found
    } else {
        Outcome::Wrong
    }
}

/// Runs the list with memory for one growth more each time, until all is done: whether nothing was run before,
/// and then a command was refused.
fn is_list_refused(alloc: Global, held: &mut Vec<Vec<u8>>, commands: &[Command]) -> bool {
    let (mut is_list_refused, mut is_command_refused) = (false, false);
    'growths: for _ in 0..4096u32 {
        match run(alloc, commands) {
            Outcome::NothingRun => is_list_refused = true,
            Outcome::SomeRefused => is_command_refused = true,
            Outcome::AllDone => return is_list_refused && is_command_refused,
            Outcome::Wrong => return false,
        }
        let _ = held.pop();
    }
    false
}

/// Runs a command with memory for one growth more each time, until it is done, or was although it was refused:
/// whether it was refused before, and then leaves this text and prints these bytes.
fn is_refused_first(
    alloc: Global,
    held: &mut Vec<Vec<u8>>,
    store: &mut MemoryStore,
    command: &Command,
    done: (&str, &str),
) -> bool {
    let mut is_refused = false;
    'growths: for _ in 0..4096u32 {
        let mut out = MemoryOut::new(alloc);
        if let Ok(answers) = run_list(alloc, store, &mut out, slice::from_ref(command)) {
            match answers.as_slice().first() {
                Some(Refused(Fault::OutOfMemory | Fault::OutFailed)) => is_refused = true,
                Some(
                    Done
                    | Refused(
                        Fault::Journal(JournalFault::NothingToUndo | JournalFault::NothingToRedo),
                    ),
                ) => {
                    let (text, printed) = done;
                    return is_refused && holds(store, text) && out.bytes() == printed.as_bytes();
                }
                _ => return false,
            }
        }
        let _ = held.pop();
    }
    false
}

/// How many commands of the list are refused first, one after the other.
fn refused_count(
    alloc: Global,
    held: &mut Vec<Vec<u8>>,
    store: &mut MemoryStore,
    commands: &[Command],
) -> usize {
    let mut count = 0usize;
    'commands: for (command, done) in commands.iter().zip(DONE.iter()) {
        hold_memory(alloc, held);
        if !is_refused_first(alloc, held, store, command, *done) {
            return count;
        }
        count = count.saturating_add(1);
    }
    count
}

#[test]
fn each_growth_of_a_list(rt: HostRuntime) -> Result<(), Fail> {
    let alloc = rt.alloc();
    let commands = commands(alloc, &LIST)?;
    let mut store = store_with_file(alloc)?;
    let mut held = Vec::with_capacity(alloc, 1 << 20)?;
    hold_memory(alloc, &mut held);
    let is_list_refused = is_list_refused(alloc, &mut held, &commands);
    let count = refused_count(alloc, &mut held, &mut store, &commands);
    assert!(rt; is_list_refused);
    assert_eq!(rt; count, LIST.len());
    Ok(())
}
