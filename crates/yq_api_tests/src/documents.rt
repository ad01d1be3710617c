//! Calls on documents, programs and values that take memory.

use std::alloc::Global;
use yq_expr::{Match, Program, matches, parse_expr, plan};
use yq_flow_edits::write_inline;
use yq_splice::{Session, edit, print};
use yq_tree::{Documents, read};

/// A call: an expression parsed, a text read, an update planned, what a read finds, the updates carried out,
/// a session opened, the value that was found printed and written in flow style, and a worked update: parsed,
/// read, planned, opened and carried out.
#[derive(Clone, Copy)]
pub enum OnDocuments {
    Parse(&'static str),
    Read(&'static str),
    Plan(usize),
    Matches,
    Edit,
    Open,
    Print,
    Flow,
    Edited(&'static str, &'static str),
}

pub const TEXT: &str = "a: [b, {c: \"d\"}]\nl:\n- &x {n: y}\n- {n: x, v: [1, {k: \"q\\t\"}]} # e\n";

/// Updates of every kind.
pub const UPDATES: &str =
    ".l[0] = {\"k\": [\"v\\t\", null]} | .a += [3, {\"k\": 4}] | .a[1] += {\"b\": 2, \"e\": 3} | .l[].n = .a[0] | .b.c = \"m\\n\" | del(.l[1].v) | .l head_comment = \"x\"";

pub const READ: &str = ".l[] | select(.n == \"x\") | .v";

/// What the calls are made on: programs of updates and of a read, the documents of the text, and what the
/// read finds in them.
#[derive(Clone, Copy)]
pub struct Inputs<'a> {
    pub updates: &'a Program,
    pub pipe: &'a Program,
    pub documents: &'a Documents<'static>,
    pub found: &'a [Match],
}

/// How long the first value is as it is printed, or in flow style.
fn written_len(alloc: Global, found: &[Match], is_printed: bool) -> Option<usize> {
    let [first, ..] = found else {
        return None;
    };
    let written = if is_printed {
        print(alloc, &first.value)
    } else {
        write_inline(alloc, &first.value)
    };
    match written {
        Ok(text) => Some(text.len()),
        Err(_) => None,
    }
}

/// How long the text is that the updates of an expression make of this one, which is read, planned on and
/// opened before.
fn edited_len(alloc: Global, text: &str, expr: &str) -> Option<usize> {
    let Ok(program) = parse_expr(alloc, expr) else {
        return None;
    };
    let Ok(documents) = read(alloc, text.as_bytes()) else {
        return None;
    };
    if program.updates() == 0 || plan(alloc, &program, 0, &documents).is_err() {
        return None;
    }
    if Session::open(alloc, text).is_err() {
        return None;
    }
    match edit(alloc, text, &program) {
        Ok(edited) => Some(edited.text.len()),
        Err(_) => None,
    }
}

/// The number that says what a call gives: none where memory ran out.
pub fn called(alloc: Global, inputs: Inputs<'_>, call: OnDocuments) -> Option<usize> {
    let Inputs {
        updates,
        pipe,
        documents,
        found,
    } = inputs;
    match call {
        OnDocuments::Parse(expr) => match parse_expr(alloc, expr) {
            Ok(program) => Some(program.updates()),
            Err(_) => None,
        },
        OnDocuments::Read(text) => match read(alloc, text.as_bytes()) {
            Ok(documents) => Some(documents.count()),
            Err(_) => None,
        },
        OnDocuments::Plan(nth) if nth < updates.updates() => {
            match plan(alloc, updates, nth, documents) {
                Ok(ops) => Some(ops.len()),
                Err(_) => None,
            }
        }
        OnDocuments::Matches if pipe.is_read() => match matches(alloc, pipe, documents) {
            Ok(found) => Some(found.len()),
            Err(_) => None,
        },
        OnDocuments::Edit => match edit(alloc, TEXT, updates) {
            Ok(edited) => Some(edited.splices.len()),
            Err(_) => None,
        },
        OnDocuments::Open => match Session::open(alloc, TEXT) {
            Ok(session) => Some(session.close().len()),
            Err(_) => None,
        },
        OnDocuments::Print => written_len(alloc, found, true),
        OnDocuments::Flow => written_len(alloc, found, false),
        OnDocuments::Edited(text, expr) => edited_len(alloc, text, expr),
        _ => None,
    }
}
