//! A list of several commands in one call: each is carried out after those before it, with no call of the
//! store more than it needs, also after a refused one and after a store and an output that failed.

use crate::asked::{FILE, Request, commands, store_with_file};
use std::alloc::{AllocError, Global};
use std::test::Fail;
use yq_run::{MemoryOut, run_list};
use yq_store::{Left, MemoryStore};

/// The commands. The calls of the store that each makes: the file and the journal are read by a call each, but
/// for what is shown, which reads the file alone; an edit, an undo and a redo write the journal twice and the
/// file once, where its bytes change; a squash of two writes the journal, and one of one nothing.
pub static LIST: [Request; 16] = [
    Request::Show(".n"), // 1
    Request::Edit(".n = 1"), // 2
    Request::Edit(".n = 2"), // 5
    Request::Squash(1), // 2
    Request::Edit(".n.m = 3"), // 2
    Request::Edit(".n = 1"), // 5
    Request::Redo, // 2
    Request::Squash(2), // 3
    Request::History, // 2
    Request::Show(".m"), // 1
    Request::Undo, // 3
    Request::Redo, // 3
    Request::Show(".n = 4"), // 1
    Request::Edit(".n = 3"), // 4, the last of which fails
    Request::Show(".n"), // 1
    Request::Undo, // 5
];

/// The calls of the store that the list makes.
const CALLS: u64 = 42;

/// Those of them that read, and all that write, the one that makes the file among them.
const READS: u64 = 28;

const WRITES: u64 = 15;

/// The first call that writes the file in the last edit.
const FAILING: u64 = 36;

const PRINTED: &str = "1\n1 done \".n = 2 | .n = 1\"\nnull\n3\n";

/// The answers to the list.
const ANSWERS: &str =
    "[Done, Done, Done, Done, Refused(X1 not a map), Done, Refused(J2 nothing to redo), Done, Done, NoMatch, Done, Done, Refused(S4 out failed), Refused(S3 write failed), Done, Done]";

/// Whether the list is answered so.
fn is_answered(
    alloc: Global,
    store: &mut MemoryStore,
    out: &mut MemoryOut,
) -> Result<bool, AllocError> {
    let commands = commands(alloc, &LIST)?;
    let answers = run_list(alloc, store, out, &commands)?;
    let answers = format!(in alloc; "{answers:?}")?;
    Ok(answers.as_str() == ANSWERS)
}

#[test]
fn go_on(rt: HostRuntime) -> Result<(), Fail> {
    let alloc = rt.alloc();
    let mut store = store_with_file(alloc)?;
    let mut out = MemoryOut::new(alloc);
    store.fail_at(FAILING, Left::NewBytes);
    out.fail_at(4);
    assert!(rt; is_answered(alloc, &mut store, &mut out)?);
    assert!(rt; out.bytes() == PRINTED.as_bytes());
    assert_eq!(rt; store.calls(), CALLS);
    assert_eq!(rt; store.reads(), READS);
    assert_eq!(rt; store.writes(), WRITES);
    Ok(())
}
