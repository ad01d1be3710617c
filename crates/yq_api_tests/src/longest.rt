//! A text of the most bytes that one may have, edited by itself and in a session.
ghost use Rattle.std.specs.Prelude.{◌≡◌, ◌<◌, string_bytes};
ghost use Rattle.yq_semantics.{specs.Program.update_count, specs.View.program_of};

use crate::scanned::adds_within;
use crate::sessions::planned;
use std::alloc::Global;
use yq_expr::{ExprError, Program, Refusal, parse_expr};
use yq_fault::Fault;
use yq_splice::{Session, edit};

/// The most bytes that a text may have.
const LONGEST: usize = 16_777_216;

/// An entry and a comment line, which make a text of so many bytes.
fn longest(alloc: Global, entry: &str) -> Option<String> {
    let Ok(mut bytes) = Vec::from_slice(alloc, entry.as_bytes()) else {
        return None;
    };
    if bytes.resize(LONGEST - 1, b'x').is_err() || bytes.push(b'\n').is_err() {
        return None;
    }
    match String::from_utf8(bytes) {
        Ok(text) => Some(text),
        Err(_) => None,
    }
}

/// Whether the first operation of a program's first update is refused in a session because the text would be
/// too long, and leaves the session's text.
fn is_too_long(alloc: Global, session: &mut Session, text: &str, program: &Program) -> bool
    requires update { 0 < update_count (program_of program.now) }
    requires text { session.old.text ≡ text.now }
{
    let Ok(ops) = planned(alloc, text, program) else {
        return false;
    };
    let Some(op) = ops.first() else {
        return false;
    };
    let why = match session.apply(op) {
        Err(ExprError::Fault(refused)) => refused.why(),
        Ok(_) | Err(ExprError::Memory) => return false,
    };
    if why != Refusal::TooLarge {
        return false;
    }
    let halves = session.text();
    text.strip_prefix(halves.front) == Some(halves.back)
}

/// Whether a program is refused on a text because the new one would be too long, by itself and in a session;
/// and whether that session then goes on with an edit that leaves the length, and counts one line of it.
fn goes_on(alloc: Global, text: &str, program: &Program, edited: &str) -> bool
    requires { 0 < update_count (program_of program.now) }
{
    let Err(Fault::Refused(refused)) = edit(alloc, text, program) else {
        return false;
    };
    if refused.why != Refusal::TooLarge {
        return false;
    }
    let Ok(mut session) = Session::open(alloc, text) else {
        return false;
    };
    is_too_long(alloc, &mut session, text, program)
        && adds_within(alloc, &mut session, ".a = 2", 1)
        && session.close().as_str() == edited
}

/// Whether that is so of the longest text.
fn is_kept(alloc: Global) -> bool {
    let Some(text) = longest(alloc, "a: 1\n#") else {
        return false;
    };
    let Some(edited) = longest(alloc, "a: 2\n#") else {
        return false;
    };
    match parse_expr(alloc, ".a = 12") {
        Ok(program) if program.updates() > 0 => {
            goes_on(alloc, text.as_str(), &program, edited.as_str())
        }
        _ => false,
    }
}

#[test]
fn longest_text_of_a_session(rt: HostRuntime) {
    assert!(rt; is_kept(rt.alloc()));
}
