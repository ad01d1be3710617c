//! Values on one line that an update puts in rows of one document, in any order, and entries at the end of a mapping.
ghost use Rattle.std.specs.Prelude.{◌≡◌, IfOk, IfSome, Some};
ghost use Rattle.yq_semantics.specs.Operations.{operation_of, operations_of};
ghost use Rattle.yq_edit_rules.specs.Operands.{HasOperand};
ghost use Rattle.yq_edit_laws.specs.Valid.{AreServed, HaveOperands};
ghost use Rattle.yq_batch.specs.Together.{CarriesTogether};
ghost use Rattle.yq_batch.specs.OpenRows as spec;

use crate::any_order::{SlotRun, ended};
use crate::change::HeadChange;
use crate::open_rows::run_at;
use crate::row_ends::{EntriesEnd, added_at_end, end_for, is_before_end};
use crate::row_order::in_row_order;
use crate::row_put::value_written;
use crate::slots::SlotPlace;
use crate::together::Together;
use std::alloc::{AllocError, Global};
use yq_edit_rules::is_filled;
use yq_lookup::CutText;
use yq_semantics::Op;

/// What an operation puts in a row of document `doc`, if it puts a value on one line in the place of an inline node.
fn put_inside<'o>(
    alloc: Global,
    cut: &mut CutText<'_, '_>,
    doc: usize,
    end: &Option<EntriesEnd<'_>>,
    op: &'o Op,
) -> Result<Option<HeadChange<'o>>, AllocError>
    requires { HasOperand (operation_of op.now) }
    ensures same { cut.new ≡ cut.old }
    ensures puts { IfOk result (spec.MayDo cut.old doc end.now op.now) }
{
    let Op::Replace(path, value) = op else {
        return Ok(None);
    };
    if path.doc != doc || is_filled(value) {
        return Ok(None);
    }
    let Some(at) = cut.to_held_row(alloc, path) else {
        return Ok(None);
    };
    if !at.inline {
        return Ok(None);
    }
    let _text = cut.text();
    let stop = at.start + at.head.len();
    if !is_before_end(end, at.row, stop) {
        return Ok(None);
    }
    let written = value_written(alloc, cut, path, &at, value)?;
    let place = SlotPlace {
        start: at.start,
        end: stop,
        more: false,
    };
    Ok(Some(HeadChange {
        place,
        lead: "",
        written,
        steps: &path.steps,
    }))
}

/// The same, or what one puts at the end of a mapping, if that is known.
fn change_inside<'o>(
    alloc: Global,
    cut: &mut CutText<'_, '_>,
    doc: usize,
    end: &Option<EntriesEnd<'_>>,
    op: &'o Op,
) -> Result<Option<HeadChange<'o>>, AllocError>
    requires { HasOperand (operation_of op.now) }
    ensures same { cut.new ≡ cut.old }
    ensures puts { IfOk result (spec.MayDo cut.old doc end.now op.now) }
{
    match (op, end) {
        (Op::Append(_, _, _), Some(end)) => added_at_end(alloc, cut, end, op),
        _ => put_inside(alloc, cut, doc, end, op),
    }
}

/// Nothing, for each of so many operations.
fn none_known<'o>(alloc: Global, count: usize) -> Result<Vec<Option<HeadChange<'o>>>, AllocError>
    ensures { IfOk result (λ v. spec.NoneKnown v.items) }
{
    let mut changes = Vec::with_capacity(alloc, count)?;
    'each: for _ in 0..count {
        changes.push(None)?;
    }
    Ok(changes)
}

/// What each operation puts in a row of document `doc`, or at the end of a mapping, found in the order of the rows;
/// nothing, where one of them does something else.
fn puts_inside<'o>(
    alloc: Global,
    cut: &CutText<'_, '_>,
    doc: usize,
    end: &Option<EntriesEnd<'_>>,
    ops: &'o [Op],
) -> Result<Option<Vec<Option<HeadChange<'o>>>>, AllocError>
    requires { HaveOperands (operations_of ops.now) }
    ensures { IfOk result (spec.FindsPuts cut.now doc end.now ops.now) }
{
    let Some(numbers) = in_row_order(alloc, cut, ops)? else {
        return Ok(None);
    };
    if numbers.len() != ops.len() {
        return Ok(None);
    }
    let order = numbers.as_slice();
    let mut way = cut.again();
    let mut changes = none_known(alloc, ops.len())?;
    'rows: for number in order {
        if *number >= ops.len() || *number >= changes.len() {
            return Ok(None);
        }
        let found = change_inside(alloc, &mut way, doc, end, &ops[*number])?;
        if found.is_none() {
            return Ok(None);
        }
        changes[*number] = found;
    }
    Ok(Some(changes))
}

/// The document in which the first of operations puts something, or that of a mapping's end.
fn document_of(ops: &[Op], end: &Option<EntriesEnd<'_>>) -> Option<usize>
    ensures { IfSome result (spec.IsEndsDocument end.now) }
{
    if let Some(end) = end {
        return Some(end.path.doc);
    }
    match ops {
        [Op::Replace(path, _), ..] => Some(path.doc),
        _ => None,
    }
}

/// What operations put in rows of one mapping, and at its end, with a run in which nothing was put yet; nothing, where
/// one of them does something else.
fn begun<'o>(
    alloc: Global,
    cut: &CutText<'_, '_>,
    ops: &'o [Op],
) -> Result<Option<(Vec<Option<HeadChange<'o>>>, SlotRun)>, AllocError>
    requires { HaveOperands (operations_of ops.now) }
    ensures { IfOk result (λ o. IfSome o (λ x.
        spec.BeginsInRows ops.now cut.now x.0.items x.1)) }
{
    let Some(end) = end_for(cut, ops) else {
        return Ok(None);
    };
    let Some(doc) = document_of(ops, &end) else {
        return Ok(None);
    };
    let Some(changes) = puts_inside(alloc, cut, doc, &end, ops)? else {
        return Ok(None);
    };
    let Some(run) = run_at(alloc, cut.text(), &changes, &end)? else {
        return Ok(None);
    };
    Ok(Some((changes, run)))
}

/// Operations carried out that each put a value on one line in a row of one mapping, in any order, or an entry at its
/// end; nothing, where one of them does something else.
pub(crate) fn carry_in_any_row<'o>(
    alloc: Global,
    cut: &CutText<'_, '_>,
    ops: &'o [Op],
) -> Result<Option<Together<'o>>, AllocError>
    requires { AreServed (operations_of ops.now) cut.now }
    ensures { IfOk result (CarriesTogether ops.now cut.now) }
{
    let Some((changes, begin)) = begun(alloc, cut, ops)? else {
        return Ok(None);
    };
    let text = cut.text();
    let mut run = begin;
    let mut rest = ops;
    let mut left = changes.as_slice();
    'operations: while let [_, after @ ..] = rest {
        let [known, others @ ..] = left else {
            return Ok(None);
        };
        let Some(change) = known else {
            return Ok(None);
        };
        if !run.put_in_rows(alloc, text, change)? {
            return Ok(None);
        }
        rest = after;
        left = others;
    }
    let edited = ended(alloc, text, run)?;
    Ok(Some(Together { edited, left: rest }))
}
