//! Items and entries that an update takes out of the flow collections of heads, one before the other: they are carried out
//! together, and each head is read once.
ghost use Rattle.std.specs.Prelude.{◌≡◌, false, IfErr, IfOk, None};
ghost use Rattle.yq_text.specs.TextGapBuffer.{buffer_text};
ghost use Rattle.yq_documents.specs.Reading.{cut_of};
ghost use Rattle.yq_semantics.specs.Operations.{operation_of, operations_of};
ghost use Rattle.yq_edit_laws.{specs.Answers.EditFails, specs.Carried.carry_all, specs.Theorems.IsFitting, specs.Valid.AreServed};
ghost use Rattle.yq_batch.{specs.HeadRuns.IsRowAt, specs.RemovalRuns.{HasRemoved, RemovesSo, all_left}, specs.RowRemovals.FailsOn};
ghost use Rattle.yq_batch.{specs.Together.CarriesFirst, specs.Runs.{IsFoundHead, IsInText, cut_with, stem_of}};
ghost use Rattle.yq_batch.specs.HeadRemovals as spec;

use crate::change::steps_in_head;
use crate::gone::{LeftOf, Removed, own_gone};
use crate::head::{FoundHead, HeadInText, head_for};
use crate::heads::row_at;
use crate::removals::{RemovalRun, ended, exchange, remove_each, untouched};
use crate::together::Together;
use crate::under::path_of;
use std::alloc::Global;
use yq_lookup::CutText;
use yq_semantics::{ExprError, Op};

/// Carries out an operation on the text of a run, if it takes out the last item or entry that is left of the own
/// collection of a head, which is in a row: an empty one comes there.
fn empty_head<'s>(
    alloc: Global,
    at: &HeadInText<'_, '_, '_, '_, '_, '_>,
    row: usize,
    taken: (&'s Op, Option<LeftOf<'s>>),
    run: &mut RemovalRun,
) -> Result<bool, ExprError>
    requires there { IsInText at.now }
    requires row { IsRowAt (cut_with at.now) at.now.doc (stem_of at.now) row }
    requires run { RemovesSo (cut_with at.now) at.now.doc (stem_of at.now) taken.1 run.old }
    requires fits { IsFitting (operation_of taken.0.now) (buffer_text run.old.text) }
    ensures ok { IfOk result (spec.MayEmpty taken.entry.0.now at.now row run.old run.new) }
    ensures stays { IfOk result (λ b. b ≡ false → run.new ≡ run.old) }
    ensures err { IfErr result (λ e. FailsOn e (operation_of taken.entry.0.now) run.old) }
{
    let (op, known) = taken;
    let Op::Remove(path) = op else {
        return Ok(false);
    };
    let Some(steps) = steps_in_head(path, at.doc, at.stem) else {
        return Ok(false);
    };
    let Some(gone) = own_gone(at, steps, known, run) else {
        return Ok(false);
    };
    let Removed {
        start,
        end,
        new,
        ..
    } = gone;
    exchange(alloc, run, start, end, new)?;
    Ok(true)
}

/// Carries out operations on the text of a run that take items and entries out of the collections of a head; and reports
/// which are left.
fn remove_in_head<'s>(
    alloc: Global,
    cut: &CutText<'_, '_>,
    found: FoundHead<'s, '_>,
    ops: &'s [Op],
    run: &mut RemovalRun,
) -> Result<&'s [Op], ExprError>
    requires head { IsFoundHead cut.now found }
    requires run { spec.RemovesFrom cut.now found run.old }
    requires serves { AreServed (operations_of ops.now) (buffer_text run.old.text) }
    ensures ok { IfOk result (λ left. HasRemoved ops.now run.old left.now run.new) }
    ensures err { IfErr result (λ e. EditFails e (all_left ops.now run.old)) }
{
    let FoundHead { doc, stem, head } = found;
    let _text = cut.text();
    let at = HeadInText {
        cut,
        doc,
        stem,
        head,
    };
    let (left, _known) = remove_each(alloc, &at, ops, run)?;
    Ok(left)
}

/// The same of a head in a row, whose own collection may become empty.
fn remove_in_row<'s>(
    alloc: Global,
    cut: &CutText<'_, '_>,
    found: (FoundHead<'s, '_>, usize),
    ops: &'s [Op],
    run: &mut RemovalRun,
) -> Result<&'s [Op], ExprError>
    requires head { IsFoundHead cut.now found.0 }
    requires row { spec.IsRowOf cut.now found.0 found.1 }
    requires run { spec.RemovesFrom cut.now found.0 run.old }
    requires serves { AreServed (operations_of ops.now) (buffer_text run.old.text) }
    ensures ok { IfOk result (spec.RemovesAt ops.now cut.now found.entry run.old run.new) }
    ensures err { IfErr result (λ e. EditFails e (all_left ops.now run.old)) }
{
    let (FoundHead { doc, stem, head }, row) = found;
    let _text = cut.text();
    let at = HeadInText {
        cut,
        doc,
        stem,
        head,
    };
    let (left, known) = remove_each(alloc, &at, ops, run)?;
    let [op, after @ ..] = left else {
        return Ok(left);
    };
    if empty_head(alloc, &at, row, (op, known), run)? {
        return Ok(after);
    }
    Ok(left)
}

/// Carries out the first ones of some operations on the text of a run, as long as they take items and entries out of the
/// collections of one head, in a row in front of the one that was changed last; and reports which row that is then.
fn remove_earlier<'o>(
    alloc: Global,
    cut: &mut CutText<'_, '_>,
    from: (usize, usize),
    ops: &'o [Op],
    run: &mut RemovalRun,
) -> Result<Option<(&'o [Op], usize)>, ExprError>
    requires run { spec.RemovesHeads (cut_of cut.old) from.0 from.1 run.old }
    requires serves { AreServed (operations_of ops.now) (buffer_text run.old.text) }
    ensures same { cut.new ≡ cut.old }
    ensures ok { IfOk result (spec.RemovesEarlier ops.now cut.old from.0 run.old run.new) }
    ensures stays { IfOk result (λ o. o ≡ None → run.new ≡ run.old) }
    ensures err { IfErr result (λ e. EditFails e (all_left ops.now run.old)) }
{
    let [op, ..] = ops else {
        return Ok(None);
    };
    let (doc, last) = from;
    cut.go_along(alloc, path_of(op));
    let Some(found) = head_for(alloc, cut, op)? else {
        return Ok(None);
    };
    if found.doc != doc {
        return Ok(None);
    }
    let Some(row) = row_at(alloc, cut, doc, found.stem)? else {
        return Ok(None);
    };
    if row >= last {
        return Ok(None);
    }
    let _text = cut.text();
    let left = remove_in_row(alloc, cut, (found, row), ops, run)?;
    Ok(Some((left, row)))
}

/// Carries out operations together that take items and entries out of flow collections of a document, those of the last
/// head first, up to the first one that does something else, or isn't before one that was carried out.
pub(crate) fn remove_in_heads<'o>(
    alloc: Global,
    cut: &CutText<'_, '_>,
    found: FoundHead<'o, '_>,
    ops: &'o [Op],
) -> Result<Together<'o>, ExprError>
    requires head { IsFoundHead cut.now found }
    requires serves { AreServed (operations_of ops.now) cut.now }
    ensures ok { IfOk result (CarriesFirst ops.now cut.now) }
    ensures err { IfErr result (λ e. EditFails e (carry_all (operations_of ops.now) cut.now)) }
{
    let doc = found.doc;
    let mut way = cut.again();
    let row = row_at(alloc, &mut way, doc, found.stem)?;
    let mut run = untouched(alloc, cut.text())?;
    let Some(first) = row else {
        let left = remove_in_head(alloc, cut, found, ops, &mut run)?;
        return Ok(ended(run, left));
    };
    let mut rest = remove_in_row(alloc, cut, (found, first), ops, &mut run)?;
    let mut last = first;
    'heads: while !rest.is_empty() {
        let next = remove_earlier(alloc, &mut way, (doc, last), rest, &mut run)?;
        let Some((left, row)) = next else {
            return Ok(ended(run, rest));
        };
        if left.len() >= rest.len() {
            return Ok(ended(run, left));
        }
        last = row;
        rest = left;
    }
    Ok(ended(run, rest))
}
