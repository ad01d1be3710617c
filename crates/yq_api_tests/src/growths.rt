//! Each growth of a call refused in turn; with memory the call gives its answer, and some take memory
//! once for it.

use crate::documents::{Inputs, OnDocuments, READ, TEXT, UPDATES};
use crate::journals::OnJournal;
use crate::memory::hold_memory;
use crate::texts::OnText;
use crate::{documents, journals, texts};
use std::alloc::Global;
use yq_core::Break;
use yq_expr::{matches, parse_expr};
use yq_journal::Journal;
use yq_tree::read;

/// A call by what it is made on.
#[derive(Clone, Copy)]
enum Call {
    Text(OnText, &'static str),
    Documents(OnDocuments),
    Journal(OnJournal, &'static str),
}

/// Calls in order, and a number that says what each gives: of a content, a gap and lines for how many bytes
/// memory was taken, which is more only if it was taken twice.
static CALLS: [(Call, usize); 50] = [
    (Call::Text(OnText::Content, "a\n b\n\n c"), 8),
    (Call::Text(OnText::Content, "'it''s'"), 5),
    (Call::Text(OnText::Content, "\"\\L\\P\\L\\P\""), 12),
    (
        Call::Text(OnText::Content, "\"\\N\\_\\x41\\U0001F600\""),
        27,
    ),
    (Call::Text(OnText::Content, ">\n  a\n  b\n\n   c\n"), 14),
    (Call::Text(OnText::Content, "|+\n  a\n\n"), 5),
    (Call::Text(OnText::Gap, "|\n  x\n"), 9),
    (Call::Text(OnText::Lines(Break::Lf), "a\n\n b"), 10),
    (Call::Text(OnText::Lines(Break::CrLf), "z\nw\n"), 10),
    (Call::Text(OnText::Copied, "more than 16 bytes"), 20),
    (Call::Text(OnText::Inline, "[a, {b: 'c', d: 2}]"), 19),
    (
        Call::Text(
            OnText::Rows,
            "a: [b, {c: \"d\"}]\n---\n- e\n- f\n- g\n- h\n- i\n- j\n",
        ),
        7,
    ),
    (
        Call::Documents(OnDocuments::Parse(
            ".a.\"b\\n\"[0] = [1, {\"k\": \"v\\t\", \"l\": null}] + (.c | select(has(\"d\"))) | del(.e) | .f line_comment=\"g\"",
        )),
        3,
    ),
    (
        Call::Documents(OnDocuments::Read("a: [b, {c: \"d\"}]\n---\n- &x e\n- *x\n")),
        2,
    ),
    (Call::Documents(OnDocuments::Plan(0)), 1),
    (Call::Documents(OnDocuments::Plan(1)), 2),
    (Call::Documents(OnDocuments::Plan(2)), 2),
    (Call::Documents(OnDocuments::Plan(3)), 2),
    (Call::Documents(OnDocuments::Plan(4)), 1),
    (Call::Documents(OnDocuments::Plan(5)), 1),
    (Call::Documents(OnDocuments::Plan(6)), 1),
    (Call::Documents(OnDocuments::Matches), 1),
    (Call::Documents(OnDocuments::Edit), 10),
    (Call::Documents(OnDocuments::Open), 65),
    (Call::Documents(OnDocuments::Print), 15),
    (Call::Documents(OnDocuments::Flow), 15),
    (Call::Journal(OnJournal::Read, ""), 2),
    (Call::Journal(OnJournal::Undo, "n: 3\n"), 1),
    (Call::Journal(OnJournal::UndoRecord, "n: 2\n"), 1),
    (Call::Journal(OnJournal::RedoRecord, "n: 1\n"), 1),
    (Call::Journal(OnJournal::Redo, "n: 2\n"), 2),
    (Call::Journal(OnJournal::StartUndo, "n: 3\n"), 2),
    (Call::Journal(OnJournal::Settle, "n: 2\n"), 1),
    (Call::Journal(OnJournal::StartRedo, "n: 2\n"), 1),
    (Call::Journal(OnJournal::Settle, "n: 3\n"), 2),
    (Call::Journal(OnJournal::Squash(2), ""), 1),
    (Call::Journal(OnJournal::Write, ""), 1),
    (Call::Journal(OnJournal::Push, ""), 1),
    (
        Call::Documents(OnDocuments::Edited("name: web # main\nport: 8080\n", ".port = 9090")),
        28,
    ),
    (
        Call::Documents(OnDocuments::Edited("p: [\n  a, # one\n  b\n]\n", "del(.p[1])")),
        11,
    ),
    (
        Call::Documents(OnDocuments::Edited("run: |\n    echo a\n", ".run = \"echo b\\n\"")),
        18,
    ),
    (
        Call::Documents(OnDocuments::Edited(
            "a: 1\nb: 2\n",
            ".b head_comment = \"one\\ntwo\" | .a line_comment = \"x\"",
        )),
        26,
    ),
    (
        Call::Documents(OnDocuments::Edited("list:\n  - 5 # c\n", ".list[0] = {\"k\": [1]}")),
        31,
    ),
    (Call::Journal(OnJournal::ReadOne, ""), 1),
    (
        Call::Journal(OnJournal::Undo, "name: api # main\nport: 9090\n"),
        0,
    ),
    (
        Call::Journal(OnJournal::Redo, "name: api # main\nport: 8080\n"),
        1,
    ),
    (
        Call::Journal(OnJournal::StartUndo, "name: api # main\nport: 9090\n"),
        1,
    ),
    (
        Call::Journal(OnJournal::Settle, "name: api # main\nport: 8080\n"),
        0,
    ),
    (Call::Journal(OnJournal::Write, ""), 0),
    (Call::Journal(OnJournal::Push, ""), 0),
];

/// With all memory held the call is refused; once enough is given back it gives what is wanted.
fn is_refused_first(
    alloc: Global,
    held: &mut Vec<Vec<u8>>,
    inputs: Inputs<'_>,
    journal: &mut Journal,
    row: &(Call, usize),
) -> bool {
    let (call, wanted) = row;
    hold_memory(alloc, held);
    'growths: for nth_growth in 0..4096u32 {
        let number = match *call {
            Call::Text(call, text) => texts::called(alloc, call, text),
            Call::Documents(call) => documents::called(alloc, inputs, call),
            Call::Journal(call, text) => journals::called(alloc, journal, call, text.as_bytes()),
        };
        if let Some(number) = number {
            return nth_growth > 0 && number == *wanted;
        }
        let _ = held.pop();
    }
    false
}

/// How many calls there are up to one that isn't refused first, or doesn't give then what is wanted.
fn refused_count(alloc: Global, inputs: Inputs<'_>) -> usize {
    let Ok(mut held) = Vec::with_capacity(alloc, 1 << 20) else {
        return 0;
    };
    let mut journal = Journal::new(alloc);
    let mut count = 0;
    'calls: for row in &CALLS {
        if !is_refused_first(alloc, &mut held, inputs, &mut journal, row) {
            return count;
        }
        count = count.saturating_add(1);
    }
    count
}

/// The same, of calls on the documents of the text.
fn refused_in_text(alloc: Global) -> usize {
    let Ok(updates) = parse_expr(alloc, UPDATES) else {
        return 0;
    };
    let Ok(pipe) = parse_expr(alloc, READ) else {
        return 0;
    };
    let Ok(documents) = read(alloc, TEXT.as_bytes()) else {
        return 0;
    };
    if !pipe.is_read() {
        return 0;
    }
    let Ok(found) = matches(alloc, &pipe, &documents) else {
        return 0;
    };
    let inputs = Inputs {
        updates: &updates,
        pipe: &pipe,
        documents: &documents,
        found: found.as_slice(),
    };
    refused_count(alloc, inputs)
}

#[test]
fn each_growth_of_a_call(rt: HostRuntime) {
    assert_eq!(rt; refused_in_text(rt.alloc()), CALLS.len());
}
