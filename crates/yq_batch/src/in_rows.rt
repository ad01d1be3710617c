//! Operations of an update that each change one row: they are carried out together, on the rows as they
//! were read.
ghost use Rattle.std.specs.Prelude.{◌≡◌, true, IfErr, IfOk, IfSome, IsTrue};
ghost use Rattle.yq_documents.specs.Reading.{cut_of};
ghost use Rattle.yq_semantics.{specs.Operations.operations_of, specs.Under.ops_under};
ghost use Rattle.yq_edit_rules.specs.Operands.{HasOperand};
ghost use Rattle.yq_edit_laws.{specs.Answers.EditFails, specs.Carried.{carry_all, carried}, specs.Theorems.IsFitting};
ghost use Rattle.yq_edit_laws.specs.Valid.{AreServed};
ghost use Rattle.yq_batch.{specs.Runs.now_text, specs.Together.CarriesTogether, specs.Under.{MayCarryUnder, op_meant}};
ghost use Rattle.yq_batch.specs.RowRuns as spec;

use crate::any_row::carry_in_any_row;
use crate::kept_breaks::{is_same_break, near_break};
use crate::row_put::{RowPut, row_put};
use crate::run::PutRun;
use crate::together::Together;
use crate::under::{OpAt, lead_on, path_to, placed};
use std::alloc::Global;
use yq_core::Step;
use yq_lookup::CutText;
use yq_semantics::{ExprError, Op};

/// Whether an operation ends lines by the same break in the text of a run as in the text that was read, at
/// whichever path it is.
fn writes_same_break(cut: &CutText<'_, '_>, op: &Op, run: &PutRun) -> bool
    ensures { IsTrue result → spec.KeepsBreakAt op.now (cut_of cut.now) run.now }
{
    let Op::HeadComment(_, text) = op else {
        return true;
    };
    // Each head comment looks for the text's first break, so that has to be near.
    if near_break(cut.text().front.as_bytes()).is_none() {
        return false;
    }
    if text.is_empty() || (run.text.is_empty() && run.done == 0) {
        return true;
    }
    match near_break(run.text.as_bytes()) {
        Some(found) => is_same_break(found, cut.first_break()),
        None => false,
    }
}

/// Whether a row of a document comes after another one, by its document and how many rows come before
/// it, if there is that.
pub(crate) fn comes_later(last: Option<(usize, usize)>, doc: usize, row: usize) -> bool
    ensures { result ≡ true → spec.Passed last doc row }
{
    match last {
        None => true,
        Some((other, before)) => other < doc || (other == doc && before < row),
    }
}

/// Carries out an operation on the text of a run, if it changes one row, after the last one that was
/// changed. Answers which row that is then.
fn put_one<'d>(
    alloc: Global,
    cut: &mut CutText<'d, '_>,
    at: OpAt<'d, '_>,
    last: Option<(usize, usize)>,
    run: &mut PutRun,
) -> Result<Option<Option<(usize, usize)>>, ExprError>
    requires run { spec.IsPlacesRun (cut_of cut.old) last run.old }
    requires fits { IsFitting (op_meant at) (now_text (cut_of cut.old) run.old) }
    requires operand { HasOperand (op_meant at) }
    ensures same { cut.new ≡ cut.old }
    ensures ok { IfOk result (λ o. IfSome o (λ next. spec.RowsGoOn (op_meant at.entry)
        (cut_of cut.old) run.old next run.new)) }
    ensures err { IfErr result (λ e. EditFails e (carried (op_meant at.entry)
        (now_text (cut_of cut.old) run.old))) }
{
    let text = cut.text();
    if !writes_same_break(cut, at.op, run) {
        return Ok(None);
    }
    let Some(found) = row_put(alloc, cut, at)? else {
        return Ok(None);
    };
    let RowPut {
        doc,
        first,
        row,
        start,
        end,
        written,
    } = found;
    if !comes_later(last, doc, first) || start < run.done {
        return Ok(None);
    }
    let Some(written) = written else {
        return Ok(Some(last));
    };
    run.put(alloc, text, start..end, written)?;
    Ok(Some(Some((doc, row))))
}

/// Carries out operations at and below a node together, to which these steps lead, that change one row each, one after
/// the other; nothing, where one of them does more, or is in front of one before it.
pub(crate) fn put_under<'d, 'o: 'd>(
    alloc: Global,
    cut: &CutText<'d, '_>,
    front: &[Step],
    ops: &'o [Op],
) -> Result<Option<Together<'o>>, ExprError>
    requires { AreServed (ops_under front.now ops.now) cut.now }
    ensures ok { IfOk result (MayCarryUnder front.now ops.now cut.now) }
    ensures err { IfErr result (λ e. EditFails e
        (carry_all (ops_under front.now ops.now) cut.now)) }
{
    let text = cut.text();
    let mut way = cut.again();
    let mut run = PutRun::with_room(alloc, text.len(), ops.len())?;
    let mut path = path_to(alloc, front)?;
    let mut last = None;
    let mut rest = ops;
    'operations: while let [op, after @ ..] = rest {
        lead_on(alloc, front, &mut path, op)?;
        let at = placed(front, &path, op);
        let Some(next) = put_one(alloc, &mut way, at, last, &mut run)? else {
            return Ok(None);
        };
        last = next;
        rest = after;
    }
    let edited = run.end(text)?;
    Ok(Some(Together { edited, left: rest }))
}

/// The same of operations with their paths from the root on.
#[tactic(auto, using(yq_semantics::proofs::UnderLaws::ops_whole, crate::proofs::UnderLaws::first_whole))]
fn put_each<'d, 'o: 'd>(
    alloc: Global,
    cut: &CutText<'d, '_>,
    ops: &'o [Op],
) -> Result<Option<Together<'o>>, ExprError>
    requires { AreServed (operations_of ops.now) cut.now }
    ensures ok { IfOk result (CarriesTogether ops.now cut.now) }
    ensures err { IfErr result (λ e. EditFails e (carry_all (operations_of ops.now) cut.now)) }
{
    put_under(alloc, cut, &[], ops)
}

/// Carries out operations together that change one row each, one after the other, or that put values on one line in rows
/// of one mapping in any order; nothing, where one of them does more.
pub(crate) fn carry_in_rows<'d, 'o: 'd>(
    alloc: Global,
    cut: &CutText<'d, '_>,
    ops: &'o [Op],
) -> Result<Option<Together<'o>>, ExprError>
    requires { AreServed (operations_of ops.now) cut.now }
    ensures ok { IfOk result (CarriesTogether ops.now cut.now) }
    ensures err { IfErr result (λ e. EditFails e (carry_all (operations_of ops.now) cut.now)) }
{
    let found = put_each(alloc, cut, ops)?;
    if let Some(together) = found {
        return Ok(Some(together));
    }
    Ok(carry_in_any_row(alloc, cut, ops)?)
}
