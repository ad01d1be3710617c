//! Each call of the store in a list fails in turn, and leaves the old bytes or the new ones: one command is
//! refused for it, and all that was done can be undone after it.

use crate::asked::{FILE, Request, commands, store_with_file};
use crate::lists::LIST;
use std::alloc::Global;
use std::test::Fail;
use yq_args::Command;
use yq_fault::Fault;
use yq_journal::JournalFault;
use yq_run::Answer::Refused;
use yq_run::{Answer, MemoryOut, run_list};
use yq_store::{Left, MemoryStore};

/// How many calls of the store the list of each kind of command makes where none fails.
const CALLS: u64 = 43;

/// Edits, and undos and redos between them: an edit drops what was undone, then nothing is left to redo, and
/// at last nothing to undo. The three edits, and the five of the others that have a record, make five calls
/// each, and the two that have none read twice.
static TO_AND_FRO: [Request; 10] = [
    Request::Edit(".n = 2"),
    Request::Edit(".n = 3"),
    Request::Undo,
    Request::Undo,
    Request::Redo,
    Request::Edit(".n = 5"),
    Request::Redo,
    Request::Undo,
    Request::Undo,
    Request::Undo,
];

const CALLS_TO_AND_FRO: u64 = 44;

/// How often an undo is asked for: more often than the list edits.
static UNDOS: [Request; 6] = [
    Request::Undo,
    Request::Undo,
    Request::Undo,
    Request::Undo,
    Request::Undo,
    Request::Undo,
];

/// How many answers say that the store failed; nothing where one says that memory ran out.
fn failures_in(answers: &[Answer]) -> Option<u32> {
    let mut count = 0u32;
    'answers: for answer in answers {
        match answer {
            Refused(Fault::ReadFailed | Fault::WriteFailed) => count = count.saturating_add(1),
            Refused(Fault::OutOfMemory) => return None,
            _ => (),
        }
    }
    Some(count)
}

/// Whether the undos lead to the first text, where the last one finds nothing to undo.
fn leads_back(alloc: Global, store: &mut MemoryStore, undos: &[Command]) -> bool {
    let mut out = MemoryOut::new(alloc);
    let Ok(answers) = run_list(alloc, store, &mut out, undos) else {
        return false;
    };
    let is_back = match store.bytes(FILE) {
        Some(bytes) => bytes.as_slice() == b"n: 1\n".as_slice(),
        None => false,
    };
    is_back
        && matches!(
            answers.as_slice().last(),
            Some(Refused(Fault::Journal(JournalFault::NothingToUndo)))
        )
}

/// After how many calls the list ends, with this one failing; nothing where it isn't answered as it has to be.
fn calls_with_failure(
    alloc: Global,
    list: &[Command],
    undos: &[Command],
    call: u64,
    left: Left,
) -> Result<Option<u64>, Fail> {
    let mut store = store_with_file(alloc)?;
    let mut out = MemoryOut::new(alloc);
    store.fail_at(call, left);
    let answers = run_list(alloc, &mut store, &mut out, list)?;
    let calls = store.calls();
    let is_answered = failures_in(&answers) == Some(u32::from(call <= calls));
    store.fail_at(0, left);
    Ok((is_answered && leads_back(alloc, &mut store, undos)).then_some(calls))
}

/// How many calls of a list fail in turn, until it ends before the failing one, and all are answered so.
fn failing_calls(alloc: Global, asked: &[Request], left: Left) -> Result<Option<u64>, Fail> {
    let list = commands(alloc, asked)?;
    let undos = commands(alloc, &UNDOS)?;
    let mut failed = 0u64;
    'calls: for _ in 0..256u32 {
        let call = failed.saturating_add(1);
        match calls_with_failure(alloc, &list, &undos, call, left)? {
            Some(calls) if calls < call => return Ok(Some(failed)),
            Some(_) => failed = call,
            None => return Ok(None),
        }
    }
    Ok(None)
}

#[test]
fn each_call_of_a_list_fails(rt: HostRuntime) -> Result<(), Fail> {
    'outcomes: for left in [Left::OldBytes, Left::NewBytes] {
        assert_eq!(rt; failing_calls(rt.alloc(), &LIST, left)?, Some(CALLS));
        assert_eq!(rt;
            failing_calls(rt.alloc(), &TO_AND_FRO, left)?,
            Some(CALLS_TO_AND_FRO)
        );
    }
    Ok(())
}
