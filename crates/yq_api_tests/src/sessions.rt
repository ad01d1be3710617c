//! Operations applied to a text by themselves and to a session, each growth refused first.
ghost use Rattle.std.specs.Prelude.{◌≡◌, ◌<◌, IfOk, IsTrue, Some, slice_get};
ghost use Rattle.yq_semantics.{specs.Operations.operation_of, specs.declared.op.Op.Op, specs.Program.update_count, specs.View.program_of};
ghost use Rattle.yq_edit_laws.specs.Theorems.{IsFitting};

use crate::memory::hold_memory;
use std::alloc::Global;
use yq_expr::{Op, Program, parse_expr, plan};
use yq_fault::{Fault, unnamed};
use yq_splice::{Session, apply_op};
use yq_tree::read;

/// Texts, updates, what the first operation of each makes of its text, and how many lines a session counts
/// of both at most.
static EDITS: [(&str, &str, &str, u64); 5] = [
    (
        "name: web # main\nport: 8080\n",
        ".port = 9090",
        "name: web # main\nport: 9090\n",
        3,
    ),
    (
        "p: [\n  a, # one\n  b\n]\n",
        "del(.p[1])",
        "p: [\n  a\n]\n",
        7,
    ),
    (
        "run: |\n    echo a\n",
        ".run = \"echo b\\n\"",
        "run: |\n    echo b\n",
        4,
    ),
    (
        "a: 1\nb: 2\n",
        ".b head_comment = \"one\\ntwo\"",
        "a: 1\n# one\n# two\nb: 2\n",
        6,
    ),
    (
        "list:\n  - 5 # c\n",
        ".list[0] = {\"k\": [1]}",
        "list:\n  - # c\n    k:\n      - 1\n",
        5,
    ),
];

/// The operations of the first update of a program, as planned on a text, which the first of them fits.
pub(crate) fn planned(alloc: Global, text: &str, program: &Program) -> Result<Vec<Op>, Fault>
    requires { 0 < update_count (program_of program.now) }
    ensures { IfOk result (λ ops. (op : Op) → slice_get ops.items 0 ≡ Some op →
        IsFitting (operation_of op) text.now) }
{
    let documents = read(alloc, text.as_bytes())?;
    let ops = unnamed(plan(alloc, program, 0, &documents))?;
    Ok(ops)
}

/// Whether an operation is applied to a session, or by itself to its text, only after refused growths.
fn is_refused_first(
    alloc: Global,
    session: &mut Session,
    text: &str,
    op: &Op,
    is_by_itself: bool,
) -> bool
    requires by_itself { IsFitting (operation_of op.now) text.now }
    requires fits { IsFitting (operation_of op.now) session.old.text }
    ensures { IsTrue is_by_itself → session.new ≡ session.old }
{
    let Ok(mut held) = Vec::with_capacity(alloc, 1 << 20) else {
        return false;
    };
    hold_memory(alloc, &mut held);
    'growths: for nth_growth in 0..4096u32 {
        if is_by_itself {
            if apply_op(alloc, text, op).is_ok() {
                return nth_growth > 1;
            }
        } else if session.apply(op).is_ok() {
            return nth_growth > 1;
        }
        let _ = held.pop();
    }
    false
}

/// Whether an operation is refused first and then applied, by itself and to a session.
fn is_applied(alloc: Global, session: &mut Session, text: &str, op: &Op) -> bool
    requires by_itself { IsFitting (operation_of op.now) text.now }
    requires fits { IsFitting (operation_of op.now) session.old.text }
{
    is_refused_first(alloc, session, text, op, true)
        && is_refused_first(alloc, session, text, op, false)
}

/// Whether a session has a text, and has counted so many lines at most.
fn has_text(session: &Session, text: &str, most: u64) -> bool {
    let halves = session.text();
    session.scanned() <= most && text.strip_prefix(halves.front) == Some(halves.back)
}

/// Whether that is so of the first operation that is planned for a program, and the session has that text then.
fn is_carried_out(alloc: Global, text: &str, program: &Program, edited: &str, most: u64) -> bool
    requires { 0 < update_count (program_of program.now) }
{
    let Ok(ops) = planned(alloc, text, program) else {
        return false;
    };
    let Some(op) = ops.first() else {
        return false;
    };
    match Session::open(alloc, text) {
        Ok(mut session) => {
            is_applied(alloc, &mut session, text, op) && has_text(&session, edited, most)
        }
        Err(_) => false,
    }
}

/// Whether that is so of an expression.
fn is_edited(alloc: Global, text: &str, expr: &str, edited: &str, most: u64) -> bool {
    match parse_expr(alloc, expr) {
        Ok(program) if program.updates() > 0 => {
            is_carried_out(alloc, text, &program, edited, most)
        }
        _ => false,
    }
}

#[test]
fn each_growth_of_an_operation(rt: HostRuntime) {
    'edits: for (text, expr, edited, most) in &EDITS {
        assert!(rt;
            is_edited(rt.alloc(), *text, *expr, *edited, *most),
            "{expr}"
        );
    }
}
