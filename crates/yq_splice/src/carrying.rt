//! Carrying out: operations done on a text, one after the other.
ghost use Rattle.std.specs.Prelude.{◌≡◌, ◌++◌, Some, IfErr, IfOk, string_bytes};
ghost use Rattle.yq_semantics.specs.Operations.{operation_of, operations_of};
ghost use Rattle.yq_documents.specs.Reading.{cut_of, read_at};
ghost use Rattle.yq_row_table.specs.View.{rows_view};
ghost use Rattle.yq_edit_laws.{specs.Answers.Edits, specs.Edit.edit_after, specs.Theorems.{HasReading, IsApplied, IsFitting, OpRefused}};
ghost use Rattle.yq_edit_laws.specs.Valid.{AreServed};
ghost use Rattle.yq_splice.specs.Answers.{MayEdit};
ghost use Rattle.yq_edit_laws.specs.Carried as spec;

use crate::others::{is_worth, with_others};
use crate::session::Session;
use std::alloc::{AllocError, Global};
use yq_batch::carry_together;
use yq_core::ReadError;
use yq_documents::Documents;
use yq_edit_laws::operand_holds;
use yq_lookup::CutText;
use yq_operation::carry_one;
use yq_row_table::Rows;
use yq_rows::scan;
use yq_semantics::{ExprError, Op};
use yq_text::{Edited, Splice};
use yq_tree::read;

/// An operation carried out on a text that has a reading.
#[tactic(auto, using(crate::proofs::SessionLaws::carried_again))]
pub(crate) fn carry(alloc: Global, text: &str, op: &Op) -> Result<Edited, ExprError>
    requires { HasReading text.now }
    ensures { Edits result (spec.carried (operation_of op.now) text.now) }
{
    let rows = cut_again(alloc, text)?;
    carry_one(alloc, &CutText::new(text, &rows), op)
}

/// Carries out an operation on a text that has a reading, and whose documents the operation fits. The
/// new text reads as the documents after it, and each byte that the operation doesn't name stays.
///
/// Refused exactly where the new text would have more than 16,777,216 bytes
/// ([`Refusal::TooLarge`](yq_semantics::Refusal::TooLarge)), or because memory ran out.
pub fn apply_op(alloc: Global, text: &str, op: &Op) -> Result<Edited, ExprError>
    requires { IsFitting (operation_of op.now) text.now }
    ensures exact { Edits result (spec.carried (operation_of op.now) text.now) }
    ensures done { IfOk result (λ e. IsApplied (operation_of op.now) text.now (string_bytes e.text)
        e.splices.items) }
    ensures refused { IfErr result (λ e. OpRefused e (operation_of op.now) text.now) }
{
    operand_holds(op);
    carry(alloc, text, op)
}

/// Operations carried out in a session; their splices come after others. The rows follow each operation but the
/// last one.
pub(crate) fn carry_all(
    session: Session,
    splices: Vec<Splice>,
    ops: &[Op],
) -> Result<Edited, ExprError>
    requires { AreServed (operations_of ops.now) session.text }
    ensures { Edits result (edit_after splices.items (spec.carry_all (operations_of ops.now)
        session.text)) }
{
    let mut session = session;
    let mut splices = splices;
    splices.reserve(ops.len())?;
    let mut rest = ops;
    'operations: while let [op, after @ ..] = rest {
        if after.is_empty() {
            return session.close_by(op, splices);
        }
        let mut next = session.apply_valid(op)?;
        splices.append(&mut next)?;
        rest = after;
    }
    Ok(Edited {
        text: session.close(),
        splices,
    })
}

/// An edit whose splices come after others.
pub(crate) fn edited_after(splices: Vec<Splice>, edited: Edited) -> Result<Edited, AllocError>
    ensures { IfOk result (λ e. (e.text ≡ edited.text) ×
        (e.splices.items ≡ splices.items ++ edited.splices.items)) }
{
    if splices.is_empty() {
        return Ok(edited);
    }
    let Edited {
        text,
        splices: mut last,
    } = edited;
    let mut splices = splices;
    splices.append(&mut last)?;
    Ok(Edited { text, splices })
}

/// Operations carried out on a text with its cut, where no rows follow each of them: a sole one, or those that are
/// carried out together; nothing, where these are few.
fn carry_at_once<'d>(
    alloc: Global,
    cut: &CutText<'d, '_>,
    ops: &'d [Op],
) -> Result<Option<Edited>, ExprError>
    requires read { read_at cut.now ≡ Some (cut_of cut.now) }
    requires serves { AreServed (operations_of ops.now) cut.now }
    ensures { MayEdit result (spec.carry_all (operations_of ops.now) cut.now) }
{
    if let [op] = ops {
        let edited = carry_one(alloc, cut, op)?;
        return Ok(Some(edited));
    }
    let found = carry_together(alloc, cut, ops)?;
    let Some(together) = found else {
        return Ok(None);
    };
    if together.left.len() > 1 && !is_worth(ops.len(), together.left.len()) {
        return Ok(None);
    }
    let carried = with_others(alloc, ops.len(), together)?;
    Ok(Some(carried))
}

/// A session on a copy of a text that was read, with its rows.
pub(crate) fn session_on(alloc: Global, text: &str, rows: Rows<'_>) -> Result<Session, AllocError>
    requires rows { rows ≡ rows_view (cut_of text.now) }
    requires read { read_at text.now ≡ Some (cut_of text.now) }
    ensures { IfOk result (λ s. s.text ≡ text.now) }
{
    let places = rows.into_places();
    let kept = String::from_str(alloc, text)?;
    Ok(Session::of(alloc, kept, places))
}

/// Operations carried out on a text with its rows; their splices come after others. For a sole one the text
/// is not copied.
pub(crate) fn carry_rows(
    alloc: Global,
    text: &str,
    rows: Rows<'_>,
    splices: Vec<Splice>,
    ops: &[Op],
) -> Result<Edited, ExprError>
    requires rows { rows ≡ rows_view (cut_of text.now) }
    requires read { read_at text.now ≡ Some (cut_of text.now) }
    requires serves { AreServed (operations_of ops.now) text.now }
    ensures { Edits result (edit_after splices.items (spec.carry_all (operations_of ops.now)
        text.now)) }
{
    let at_once = carry_at_once(alloc, &CutText::new(text, &rows), ops)?;
    if let Some(edited) = at_once {
        return Ok(edited_after(splices, edited)?);
    }
    let session = session_on(alloc, text, rows)?;
    carry_all(session, splices, ops)
}

/// The documents of a text that has a reading.
pub(crate) fn read_again(alloc: Global, text: &str) -> Result<Documents<'_>, AllocError>
    requires { HasReading text.now }
    ensures same { IfOk result (λ d. d ≡ text.now) }
    ensures read { IfOk result (λ d. read_at text.now ≡ Some (cut_of d)) }
{
    match read(alloc, text.as_bytes()) {
        Ok(documents) => Ok(documents),
        Err(ReadError::Memory) => Err(AllocError),
        Err(ReadError::Fault(_)) => unreachable!(),
    }
}

/// The rows of a text that has a reading: it is cut again, and nothing else of it is checked.
pub(crate) fn cut_again(alloc: Global, text: &str) -> Result<Rows<'_>, AllocError>
    requires { HasReading text.now }
    ensures { IfOk result (λ s. s ≡ rows_view (cut_of text.now)) }
{
    match scan(alloc, text) {
        Ok(rows) => Ok(rows),
        Err(ReadError::Memory) => Err(AllocError),
        Err(ReadError::Fault(_)) => unreachable!(),
    }
}

/// Operations that may follow the ones that gave a text, carried out on it: it has a reading, so that only
/// its rows are made again. Their splices come after others.
pub(crate) fn carry_on(
    alloc: Global,
    text: &str,
    splices: Vec<Splice>,
    ops: &[Op],
) -> Result<Edited, ExprError>
    requires { AreServed (operations_of ops.now) text.now }
    ensures { Edits result (edit_after splices.items (spec.carry_all (operations_of ops.now)
        text.now)) }
{
    let rows = cut_again(alloc, text)?;
    carry_rows(alloc, text, rows, splices, ops)
}
