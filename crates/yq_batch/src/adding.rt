//! Values, items and entries that an update puts in the flow collections of one head, one after the other.
ghost use Rattle.std.specs.Prelude.{◌≡◌, ◌++◌, [], true, false, None, map, IfErr, IfOk, IfSome, string_bytes};
ghost use Rattle.yq_core.specs.Entries.{tree_step};
ghost use Rattle.yq_semantics.specs.Operations.{operation_of};
ghost use Rattle.yq_edit_rules.specs.Operands.{HasOperand};
ghost use Rattle.yq_edit_laws.{specs.Answers.EditFails, specs.Carried.carried, specs.Theorems.IsFitting};
ghost use Rattle.yq_batch.specs.FilledRuns as spec;
ghost use Rattle.yq_batch.specs.Runs as runs;

use crate::change::{HeadChange, are_same_steps, change_of};
use crate::head::{HeadInText, text_around};
use crate::near::Near;
use crate::run::PutRun;
use std::alloc::{AllocError, Global};
use yq_core::Step;
use yq_semantics::{ExprError, Op};

/// A run, and the steps in its head to the collection into which it put the last item or entry, if that was empty.
#[derive(Drop)]
pub(crate) struct FilledRun<'s> {
    pub(crate) run: PutRun,
    pub(crate) filled: Option<&'s [Step]>,
}

impl<'s> FilledRun<'s> {
    /// Nothing yet, with room for a text of so many bytes and so many splices.
    pub(crate) fn with_room(
        alloc: Global,
        size: usize,
        count: usize,
    ) -> Result<FilledRun<'s>, AllocError>
        ensures text { IfOk result (λ r. string_bytes r.run.text ≡ []) }
        ensures done { IfOk result (λ r. r.run.done ≡ 0) }
        ensures splices { IfOk result (λ r. r.run.splices.items ≡ []) }
        ensures filled { IfOk result (λ r. r.filled ≡ None) }
    {
        Ok(FilledRun {
            run: PutRun::with_room(alloc, size, count)?,
            filled: None,
        })
    }
}

/// Whether an item or entry is put into the collection that is known.
fn is_known(known: Option<&[Step]>, steps: &[Step], more: bool) -> bool
    ensures { result ≡ true → (more ≡ true) × spec.IsSameFilled known.entry (map tree_step steps.now) }
{
    match known {
        Some(last) => more && are_same_steps(last, steps),
        None => false,
    }
}

/// The collection into which an item or entry is put, if nothing leads to that: the collection was empty.
fn filled_now<'s>(lead: &str, steps: &'s [Step], more: bool) -> Option<&'s [Step]>
    ensures { IfSome result (λ k. (more ≡ true) × spec.FillsFirst lead.now (map tree_step steps.now) k) }
{
    if more && lead.is_empty() {
        Some(steps)
    } else {
        None
    }
}

/// A text after a lead.
fn joined(alloc: Global, lead: &str, written: String) -> Result<String, AllocError>
    ensures { IfOk result (λ s. string_bytes s ≡ lead.now ++ string_bytes written) }
{
    if lead.is_empty() {
        return Ok(written);
    }
    let mut new = String::from_str(alloc, lead)?;
    new.push_str(&written)?;
    Ok(new)
}

/// Carries out an operation on the text of a run, if it changes a collection of a head, after those that
/// were changed.
pub(crate) fn carry_next<'s>(
    alloc: Global,
    at: &HeadInText<'_, '_, '_, '_, '_, '_>,
    op: &'s Op,
    run: &mut FilledRun<'s>,
    near: &mut Near<'s>,
) -> Result<bool, ExprError>
    requires there { runs.IsInText at.now }
    requires run { spec.FillsSo at.now run.old }
    requires fits { IsFitting (operation_of op.now) (spec.filled_text at.now run.old) }
    requires operand { HasOperand (operation_of op.now) }
    ensures ok { IfOk result (λ b. b ≡ true →
        spec.FillsOn (operation_of op.now) at.now run.old run.new) }
    ensures err { IfErr result (λ e. EditFails e (carried (operation_of op.now)
        (spec.filled_text at.now run.old))) }
{
    let found = change_of(alloc, at, op, near)?;
    let Some(change) = found else {
        return Ok(false);
    };
    let HeadChange {
        place,
        lead,
        written,
        steps,
    } = change;
    if is_known(run.filled, steps, place.more) {
        let Some(written) = written else {
            return Ok(false);
        };
        let new = joined(alloc, ", ", written)?;
        let end = run.run.done;
        run.run.put(alloc, text_around(at), end..end, new)?;
        return Ok(true);
    }
    if !run.run.comes_before(place, lead) {
        return Ok(false);
    }
    let Some(written) = written else {
        run.filled = None;
        return Ok(true);
    };
    let new = joined(alloc, lead, written)?;
    run.run
        .put(alloc, text_around(at), place.start..place.end, new)?;
    run.filled = filled_now(lead, steps, place.more);
    Ok(true)
}
