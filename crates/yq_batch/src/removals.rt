//! Items and entries that an update takes out of the flow collections of one head, one before the other: they
//! are carried out together, and the head is read once.
ghost use Rattle.std.specs.Prelude.{◌≡◌, ◌-◌, ◌≤◌, [], length, IfErr, IfOk, IfSome, None, OnOk, string_bytes};
ghost use Rattle.std.specs.Str.{IsCharBoundary, IsUtf8};
ghost use Rattle.yq_text.{specs.Halves.whole, specs.TextGapBuffer.buffer_text};
ghost use Rattle.yq_semantics.{specs.Operations.{operation_of, operations_of}, specs.Under.ops_under};
ghost use Rattle.yq_edit_laws.{specs.Answers.EditFails, specs.Carried.carry_all, specs.Theorems.IsFitting, specs.Valid.AreServed};
ghost use Rattle.yq_batch.{specs.Runs.{IsInText, cut_with, stem_of}, specs.RowRemovals.{FailsOn, removal_of}};
ghost use Rattle.yq_batch.{specs.HeadPaths.{EndsInHead, LeadsToCollection, MayRemoveOn}, specs.Under.CarriesUnder};
ghost use Rattle.yq_batch.specs.RemovalRuns as spec;

use crate::change::steps_in_head;
use crate::gone::{LeftOf, Removed, gone_in_head};
use crate::head::HeadInText;
use crate::row_removals::takes_from;
use crate::run::{between, bytes_of, push_splice};
use crate::together::Together;
use crate::under::{lead_on, path_to, placed};
use std::alloc::{AllocError, Global};
use yq_core::Step;
use yq_documents::Path;
use yq_semantics::{ExprError, Op, Refusal};
use yq_text::{Edited, Halves, Splice, TEXT_LIMIT, TextGapBuffer};

/// What is left of a text from which items and entries were taken out, one before the other.
#[derive(Drop)]
pub(crate) struct RemovalRun {
    /// The text as it then is.
    pub(crate) text: TextGapBuffer,
    /// How many bytes of it, from its beginning on, are those that were read.
    pub(crate) keep: usize,
    pub(crate) splices: Vec<Splice>,
}

/// A text from which nothing was taken out.
pub(crate) fn untouched(alloc: Global, text: Halves<'_>) -> Result<RemovalRun, AllocError>
    ensures text { IfOk result (λ r. buffer_text r.text ≡ whole text.entry) }
    ensures keep { IfOk result (λ r. r.keep ≡ length (whole text.entry)) }
    ensures splices { IfOk result (λ r. r.splices.items ≡ []) }
{
    let keep = text.len();
    let mut copy = String::with_capacity(alloc, keep)?;
    copy.push_str(text.front)?;
    copy.push_str(text.back)?;
    Ok(RemovalRun {
        text: TextGapBuffer::of(copy),
        keep,
        splices: Vec::new(alloc),
    })
}

/// A text comes in the place of what is between two places of the text of a run, which is no shorter.
pub(crate) fn exchange(
    alloc: Global,
    run: &mut RemovalRun,
    start: usize,
    end: usize,
    new: &str,
) -> Result<(), ExprError>
    requires order { start ≤ end }
    requires room { length new.now ≤ end - start }
    requires utf8 { IsUtf8 (buffer_text run.old.text) }
    requires start { IsCharBoundary (buffer_text run.old.text) start }
    requires end { IsCharBoundary (buffer_text run.old.text) end }
    ensures ok { OnOk result (spec.HasExchanged start end new.now run.old run.new) }
    ensures err { IfErr result (λ e. spec.ExchangeFails e start end new.now run.old) }
{
    let old = bytes_of(alloc, between(run.text.halves(), start, end))?;
    let written = Vec::from_slice(alloc, new.as_bytes())?;
    run.text.move_split(start);
    run.text.exchange(end - start, new);
    run.keep = start;
    if run.text.len() > TEXT_LIMIT {
        return Err(Refusal::TooLarge.error());
    }
    Ok(push_splice(&mut run.splices, start, old, written)?)
}

/// Takes what is at a path out of the collection of a head, to which these steps lead on in that, on the text of a run,
/// before what was taken out; and reports what is left of that collection then.
#[inline(always)]
fn remove_at<'s>(
    alloc: Global,
    at: &HeadInText<'_, '_, '_, '_, '_, '_>,
    taken: (&Path, &'s [Step]),
    known: Option<LeftOf<'s>>,
    run: &mut RemovalRun,
) -> Result<Option<Option<LeftOf<'s>>>, ExprError>
    requires there { IsInText at.now }
    requires run { spec.RemovesSo (cut_with at.now) at.now.doc (stem_of at.now) known run.old }
    requires ends { EndsInHead at.now taken.1.now taken.0.now }
    requires fits { IsFitting (removal_of taken.0.now) (buffer_text run.old.text) }
    ensures ok { IfOk result (MayRemoveOn (removal_of taken.entry.0.now) at.now run.old
        run.new) }
    ensures stays { IfOk result (λ o. o ≡ None → run.new ≡ run.old) }
    ensures err { IfErr result (λ e. FailsOn e (removal_of taken.entry.0.now) run.old) }
{
    let (path, steps) = taken;
    let Some(gone) = gone_in_head(at, path, steps, known, run) else {
        return Ok(None);
    };
    let Removed {
        start,
        end,
        new,
        known,
    } = gone;
    exchange(alloc, run, start, end, new)?;
    Ok(Some(known))
}

/// Carries out an operation on the text of a run, if it takes an item or entry out of a collection of a
/// head, before those that were taken out; and reports what is left of that collection then.
fn remove_one<'s>(
    alloc: Global,
    at: &HeadInText<'_, '_, '_, '_, '_, '_>,
    op: &'s Op,
    known: Option<LeftOf<'s>>,
    run: &mut RemovalRun,
) -> Result<Option<Option<LeftOf<'s>>>, ExprError>
    requires there { IsInText at.now }
    requires run { spec.RemovesSo (cut_with at.now) at.now.doc (stem_of at.now) known run.old }
    requires fits { IsFitting (operation_of op.now) (buffer_text run.old.text) }
    ensures ok { IfOk result (MayRemoveOn (operation_of op.now) at.now run.old run.new) }
    ensures stays { IfOk result (λ o. o ≡ None → run.new ≡ run.old) }
    ensures err { IfErr result (λ e. FailsOn e (operation_of op.now) run.old) }
{
    let Op::Remove(path) = op else {
        return Ok(None);
    };
    let Some(steps) = steps_in_head(path, at.doc, at.stem) else {
        return Ok(None);
    };
    remove_at(alloc, at, (path, steps), known, run)
}

/// The text of a run with the operations that are left.
pub(crate) fn ended<'s>(run: RemovalRun, left: &'s [Op]) -> Together<'s>
    ensures text { string_bytes result.edited.text ≡ buffer_text run.text }
    ensures splices { result.edited.splices.items ≡ run.splices.items }
    ensures left { result.left.now ≡ left.now }
{
    let RemovalRun { text, splices, .. } = run;
    Together {
        edited: Edited {
            text: text.into_string(),
            splices,
        },
        left,
    }
}

/// Carries out operations on the text of a run that take items and entries out of the collections of a head, up to the
/// first one that does something else, or isn't before one that was carried out; and reports which are left, and what is
/// left of the last collection.
pub(crate) fn remove_each<'s>(
    alloc: Global,
    at: &HeadInText<'_, '_, '_, '_, '_, '_>,
    ops: &'s [Op],
    run: &mut RemovalRun,
) -> Result<(&'s [Op], Option<LeftOf<'s>>), ExprError>
    requires there { IsInText at.now }
    requires run { spec.RemovesSo (cut_with at.now) at.now.doc (stem_of at.now) None run.old }
    requires serves { AreServed (operations_of ops.now) (buffer_text run.old.text) }
    ensures ok { IfOk result (spec.RemovesInHead ops.now at.now run.old run.new) }
    ensures err { IfErr result (λ e. EditFails e (spec.all_left ops.now run.old)) }
{
    let mut known = None;
    let mut rest = ops;
    'operations: while let [op, after @ ..] = rest {
        let found = remove_one(alloc, at, op, known, run)?;
        let Some(left) = found else {
            return Ok((rest, known));
        };
        known = left;
        rest = after;
    }
    Ok((rest, known))
}

/// The same of operations at and below a node that is a flow collection of a head: of those that take its own items and
/// entries out. First come the steps to the node.
pub(crate) fn remove_children<'s>(
    alloc: Global,
    at: &HeadInText<'_, '_, '_, '_, '_, '_>,
    front: &[Step],
    ops: &'s [Op],
) -> Result<Together<'s>, ExprError>
    requires there { IsInText at.now }
    requires front { LeadsToCollection at.now front.now }
    requires serves { AreServed (ops_under front.now ops.now) at.now.cut.now }
    ensures ok { IfOk result (CarriesUnder front.now ops.now at.now.cut.now) }
    ensures err { IfErr result (λ e. EditFails e
        (carry_all (ops_under front.now ops.now) at.now.cut.now)) }
{
    let mut run = untouched(alloc, at.cut.text())?;
    let mut path = path_to(alloc, front)?;
    let mut known = None;
    let mut rest = ops;
    'operations: while let [op, after @ ..] = rest {
        if !takes_from(op, at.doc, &[]) {
            return Ok(ended(run, rest));
        }
        lead_on(alloc, front, &mut path, op)?;
        let own = placed(front, &path, op);
        let found = remove_at(alloc, at, (own.path, at.head.left), known, &mut run)?;
        let Some(left) = found else {
            return Ok(ended(run, rest));
        };
        known = left;
        rest = after;
    }
    Ok(ended(run, rest))
}
