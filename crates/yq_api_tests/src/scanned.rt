//! How many lines a session counts for an operation: no more than those of the rows and end gaps that it
//! writes, or at whose edge it does.
ghost use Rattle.std.specs.Prelude.{◌≡◌, ◌<◌, IfSome, string_bytes};
ghost use Rattle.yq_semantics.{specs.Program.update_count, specs.View.program_of};

use crate::sessions::planned;
use std::alloc::Global;
use yq_expr::{Program, parse_expr};
use yq_splice::Session;

/// Texts of several documents, or of a marker alone, updates whose first byte comes right after the line of
/// a marker, and how many lines these count at most.
static AFTER_MARKERS: [(&str, &str, u64); 6] = [
    ("---\n", ". = []", 1),
    ("---", ". = []", 2),
    ("# a\n---\n# b\n", ". = 1", 2),
    (
        "a: 1\n---\nb: 2\n",
        "(select(di == 1) | .b) head_comment = \"c\"",
        2,
    ),
    ("a: 1\n# c\n---\nb: 2\nc: 3\n", "(select(di == 1)) = 5", 1),
    (
        "a: 1\n---\nb: 2\n---\n- c\n",
        "(select(di == 1) | .b) head_comment = \"d\"",
        2,
    ),
];

/// The text of a session in one piece.
fn text_of(alloc: Global, session: &Session) -> Option<String>
    ensures { IfSome result (λ s. string_bytes s ≡ session.now.text) }
{
    let halves = session.text();
    let mut text = String::from_str(alloc, halves.front).ok()?;
    match text.push_str(halves.back) {
        Ok(()) => Some(text),
        Err(_) => None,
    }
}

/// How many lines a session counts for the first operation of a program's first update.
fn lines_by(alloc: Global, session: &mut Session, program: &Program) -> Option<u64>
    requires { 0 < update_count (program_of program.now) }
{
    let before = session.scanned();
    let Some(text) = text_of(alloc, session) else {
        return None;
    };
    let Ok(ops) = planned(alloc, text.as_str(), program) else {
        return None;
    };
    let Some(op) = ops.first() else {
        return None;
    };
    match session.apply(op) {
        Ok(_) => Some(session.scanned().saturating_sub(before)),
        Err(_) => None,
    }
}

/// Whether it counts so many lines at most for that of an expression.
pub(crate) fn adds_within(alloc: Global, session: &mut Session, expr: &str, most: u64) -> bool {
    let lines = match parse_expr(alloc, expr) {
        Ok(program) if program.updates() > 0 => lines_by(alloc, session, &program),
        _ => None,
    };
    match lines {
        Some(lines) => lines <= most,
        None => false,
    }
}

/// Whether a session of a text does so.
fn is_within(alloc: Global, text: &str, expr: &str, most: u64) -> bool {
    match Session::open(alloc, text) {
        Ok(mut session) => adds_within(alloc, &mut session, expr, most),
        Err(_) => false,
    }
}

/// A document, a thousand comment lines after it, a marker and another document.
fn with_comments(alloc: Global) -> Option<String> {
    let mut text = String::from_str(alloc, "a: 1\n").ok()?;
    'lines: for _ in 0..1000u32 {
        if text.push_str("# c\n").is_err() {
            return None;
        }
    }
    match text.push_str("---\nb: 2\nc: 3\n") {
        Ok(()) => Some(text),
        Err(_) => None,
    }
}

/// Whether no comment in front of the marker is counted where the root after it is replaced.
fn is_gap_passed(alloc: Global) -> bool {
    match with_comments(alloc) {
        Some(text) => is_within(alloc, text.as_str(), "(select(di == 1)) = 5", 1),
        None => false,
    }
}

/// A thousand rows, with numbers as they are or each with a string.
fn thousand_rows(alloc: Global, is_edited: bool) -> Option<String> {
    let mut text = String::new(alloc);
    'rows: for i in 0..1000u32 {
        let row = if is_edited {
            format!(in alloc; "k{i}: x\n")
        } else {
            format!(in alloc; "k{i}: {i}\n")
        };
        let Ok(row) = row else {
            return None;
        };
        if text.push_str(row.as_str()).is_err() {
            return None;
        }
    }
    Some(text)
}

/// Whether one line at most is counted where the value of a key is replaced.
fn is_one_line(alloc: Global, session: &mut Session, i: u32) -> bool {
    match format!(in alloc; ".k{i} = \"x\"") {
        Ok(expr) => adds_within(alloc, session, expr.as_str(), 1),
        Err(_) => false,
    }
}

/// Whether that is so of each value of a session, one after the other.
fn is_each_one_line(alloc: Global, session: &mut Session) -> bool {
    'rows: for i in 0..1000u32 {
        if !is_one_line(alloc, session, i) {
            return false;
        }
    }
    true
}

/// Whether a thousand rows are counted once, and then each one again where it is replaced.
fn are_rows_counted(alloc: Global) -> bool {
    let Some(text) = thousand_rows(alloc, false) else {
        return false;
    };
    let Some(edited) = thousand_rows(alloc, true) else {
        return false;
    };
    let Ok(mut session) = Session::open(alloc, text.as_str()) else {
        return false;
    };
    session.scanned() == 1000
        && is_each_one_line(alloc, &mut session)
        && session.close().as_str() == edited.as_str()
}

#[test]
fn lines_after_markers(rt: HostRuntime) {
    'updates: for (text, expr, most) in &AFTER_MARKERS {
        assert!(rt; is_within(rt.alloc(), *text, *expr, *most), "{expr}");
    }
    assert!(rt; is_gap_passed(rt.alloc()));
}

#[test]
fn lines_of_a_thousand_rows(rt: HostRuntime) {
    assert!(rt; are_rows_counted(rt.alloc()));
}
