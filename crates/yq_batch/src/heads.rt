//! Values that an update puts in the flow collections of heads, and items and entries that it puts into these, row after
//! row: they are carried out together, and each head is read once.
ghost use Rattle.std.specs.Prelude.{◌≡◌, map, IfErr, IfOk, IfSome};
ghost use Rattle.yq_core.specs.Entries.{tree_step};
ghost use Rattle.yq_documents.specs.Reading.{cut_of};
ghost use Rattle.yq_semantics.specs.Operations.{operations_of};
ghost use Rattle.yq_edit_laws.{specs.Answers.EditFails, specs.Carried.carry_all, specs.Valid.AreServed};
ghost use Rattle.yq_batch.{specs.FilledRuns.filled_text, specs.RowRuns.IsRowsRun, specs.Together.CarriesTogether};
ghost use Rattle.yq_batch.specs.Runs.{IsFoundHead, IsInText, Runs, cut_with, now_text};
ghost use Rattle.yq_batch.specs.HeadRuns as spec;

use crate::adding::{FilledRun, carry_next};
use crate::head::{FoundHead, HeadInText, head_for, is_in_head};
use crate::in_rows::comes_later;
use crate::near::Near;
use crate::together::Together;
use crate::under::path_of;
use crate::unordered::put_in_any_order;
use std::alloc::{AllocError, Global};
use yq_core::{Step, copied_steps};
use yq_documents::Path;
use yq_lookup::CutText;
use yq_semantics::{ExprError, Op};

/// Carries out the first ones of some operations on the text of a run, as long as they change collections of a
/// head; nothing, where one of them does something else there, or is in front of one before it.
fn put_in_head<'s>(
    alloc: Global,
    at: &HeadInText<'_, '_, '_, '_, '_, '_>,
    ops: &'s [Op],
    run: &mut FilledRun<'s>,
) -> Result<Option<&'s [Op]>, ExprError>
    requires there { IsInText at.now }
    requires run { Runs at.now run.old.run }
    requires serves { AreServed (operations_of ops.now) (filled_text at.now run.old) }
    ensures ok { IfOk result (spec.CarriesInHead ops.now at.now run.old.run run.new.run) }
    ensures err { IfErr result (λ e. EditFails e
        (spec.all_on ops.now (cut_with at.now) run.old.run)) }
{
    let mut near = Near::new(alloc, false)?;
    run.filled = None;
    let mut rest = ops;
    'operations: while let [op, after @ ..] = rest {
        if !is_in_head(op, at.doc, at.stem) {
            return Ok(Some(rest));
        }
        if !carry_next(alloc, at, op, run, &mut near)? {
            return Ok(None);
        }
        rest = after;
    }
    Ok(Some(rest))
}

/// The same of a head that was found.
fn put_in_found<'s>(
    alloc: Global,
    cut: &CutText<'_, '_>,
    found: FoundHead<'s, '_>,
    ops: &'s [Op],
    run: &mut FilledRun<'s>,
) -> Result<Option<&'s [Op]>, ExprError>
    requires head { IsFoundHead cut.now found }
    requires run { spec.RunsIn cut.now found run.old.run }
    requires serves { AreServed (operations_of ops.now) (now_text (cut_of cut.now) run.old.run) }
    ensures ok { IfOk result (spec.CarriesAt ops.now cut.now found.entry run.old.run run.new.run) }
    ensures err { IfErr result (λ e. EditFails e (spec.all_on ops.now (cut_of cut.now) run.old.run)) }
{
    let FoundHead { doc, stem, head } = found;
    let _text = cut.text();
    let at = HeadInText {
        cut,
        doc,
        stem,
        head,
    };
    put_in_head(alloc, &at, ops, run)
}

/// The row of the item or entry to which steps lead, if the node of that is inline in it.
pub(crate) fn row_at(
    alloc: Global,
    cut: &mut CutText<'_, '_>,
    doc: usize,
    stem: &[Step],
) -> Result<Option<usize>, AllocError>
    ensures same { cut.new ≡ cut.old }
    ensures row { IfOk result (λ o. IfSome o (spec.IsRowAt (cut_of cut.old) doc
        (map tree_step stem.now))) }
{
    let path = Path {
        doc,
        steps: copied_steps(alloc, stem)?,
    };
    let _text = cut.text();
    let Some(at) = cut.to_held_row(alloc, &path) else {
        return Ok(None);
    };
    if !at.inline {
        return Ok(None);
    }
    Ok(Some(at.row))
}

/// Carries out the first ones of some operations on the text of a run, as long as they change collections of
/// one head, in a row after the last one that was changed; and reports which row that is then.
fn carry_head<'o>(
    alloc: Global,
    cut: &mut CutText<'_, '_>,
    ops: &'o [Op],
    last: Option<(usize, usize)>,
    run: &mut FilledRun<'o>,
) -> Result<Option<(&'o [Op], (usize, usize))>, ExprError>
    requires run { IsRowsRun (cut_of cut.old) last run.old.run }
    requires serves { AreServed (operations_of ops.now) (now_text (cut_of cut.old) run.old.run) }
    ensures same { cut.new ≡ cut.old }
    ensures ok { IfOk result (spec.CarriesInRow ops.now cut.old run.old.run run.new.run) }
    ensures err { IfErr result (λ e. EditFails e (spec.all_on ops.now (cut_of cut.old) run.old.run)) }
{
    let [op, ..] = ops else {
        return Ok(None);
    };
    cut.go_along(alloc, path_of(op));
    let Some(found) = head_for(alloc, cut, op)? else {
        return Ok(None);
    };
    let doc = found.doc;
    let Some(row) = row_at(alloc, cut, doc, found.stem)? else {
        return Ok(None);
    };
    if !comes_later(last, doc, row) {
        return Ok(None);
    }
    let _text = cut.text();
    let Some(left) = put_in_found(alloc, cut, found, ops, run)? else {
        return Ok(None);
    };
    Ok(Some((left, (doc, row))))
}

/// Carries out operations on the text of a run in heads after one that was changed, the head of each row by those that
/// come one after the other; nothing, where one of them does something else, or is in front of one before it.
fn put_in_later<'o>(
    alloc: Global,
    cut: &CutText<'_, '_>,
    head: (usize, &[Step]),
    ops: &'o [Op],
    run: FilledRun<'o>,
) -> Result<Option<Together<'o>>, ExprError>
    requires run { spec.RunsAt cut.now head.0 head.1.now run.run }
    requires serves { AreServed (operations_of ops.now) (now_text (cut_of cut.now) run.run) }
    ensures ok { IfOk result (spec.MayGoOn ops.now (cut_of cut.now) run.entry.run) }
    ensures err { IfErr result (λ e. EditFails e (spec.all_on ops.now (cut_of cut.now) run.entry.run)) }
{
    let text = cut.text();
    let mut way = cut.again();
    let (doc, stem) = head;
    let Some(first) = row_at(alloc, &mut way, doc, stem)? else {
        return Ok(None);
    };
    let mut last = (doc, first);
    let mut run = run;
    let mut rest = ops;
    'heads: while !rest.is_empty() {
        let Some((left, row)) = carry_head(alloc, &mut way, rest, Some(last), &mut run)? else {
            return Ok(None);
        };
        if left.len() >= rest.len() {
            return Ok(None);
        }
        last = row;
        rest = left;
    }
    let edited = run.run.end(text)?;
    Ok(Some(Together { edited, left: rest }))
}

/// Carries out operations together that put values in flow collections, or items and entries into these: those of one
/// head in any order, or head after head. Nothing, where one of them does something else.
pub(crate) fn put_in_heads<'o>(
    alloc: Global,
    cut: &CutText<'_, '_>,
    found: FoundHead<'o, '_>,
    ops: &'o [Op],
) -> Result<Option<Together<'o>>, ExprError>
    requires head { IsFoundHead cut.now found }
    requires serves { AreServed (operations_of ops.now) cut.now }
    ensures ok { IfOk result (CarriesTogether ops.now cut.now) }
    ensures err { IfErr result (λ e. EditFails e (carry_all (operations_of ops.now) cut.now)) }
{
    let FoundHead { doc, stem, head } = found;
    let text = cut.text();
    let at = HeadInText {
        cut,
        doc,
        stem,
        head,
    };
    let mut run = FilledRun::with_room(alloc, text.len(), ops.len())?;
    let Some(left) = put_in_head(alloc, &at, ops, &mut run)? else {
        return Ok(put_in_any_order(alloc, &at, ops)?);
    };
    if !left.is_empty() {
        return put_in_later(alloc, cut, (doc, stem), left, run);
    }
    let edited = run.run.end(text)?;
    Ok(Some(Together { edited, left }))
}
