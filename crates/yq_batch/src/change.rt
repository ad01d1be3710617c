//! What an update changes in the flow collections of a head: values, and items and entries more.
ghost use Rattle.std.specs.Prelude.{◌≡◌, ◌+◌, ◌<◌, ◌≤◌, ◌^◌, ◌++◌, true, map, IfOk, IfSome};
ghost use Rattle.yq_core.specs.Entries.{tree_step};
ghost use Rattle.yq_documents.specs.Located.{steps_of};
ghost use Rattle.yq_semantics.specs.Operations.{operation_of};
ghost use Rattle.yq_edit_rules.specs.Operands.{HasOperand};
ghost use Rattle.yq_batch.specs.Runs as spec;

use crate::head::HeadInText;
use crate::near::Near;
use crate::slots::SlotPlace;
use std::alloc::{AllocError, Global};
use yq_core::Step;
use yq_documents::Path;
use yq_edit_laws::{collection_near, last_step, more_in_node, part_near, put_in_node};
use yq_flow_edits::{EditPlace, replace_place};
use yq_semantics::Op;

/// What an operation changes in a collection of a head.
#[derive(Drop)]
pub(crate) struct HeadChange<'s> {
    pub(crate) place: SlotPlace,
    /// What comes there first.
    pub(crate) lead: &'static str,
    /// What comes after that; nothing, where an equal scalar is there.
    pub(crate) written: Option<String>,
    /// The steps that lead on to the collection in the head.
    pub(crate) steps: &'s [Step],
}

/// Whether steps are the same.
fn is_same_step(one: &Step, other: &Step) -> bool
    ensures { result ≡ true → tree_step one.now ≡ tree_step other.now }
{
    match (one, other) {
        (Step::Key(one), Step::Key(other)) => one.as_str() == other.as_str(),
        (Step::Index(one), Step::Index(other)) => *one == *other,
        _ => false,
    }
}

/// Whether paths are the same.
pub(crate) fn are_same_steps(some: &[Step], others: &[Step]) -> bool
    ensures { result ≡ true → map tree_step some.now ≡ map tree_step others.now }
{
    if some.len() != others.len() {
        return false;
    }
    'steps: for i in 0..some.len() {
        if !is_same_step(&some[i], &others[i]) {
            return false;
        }
    }
    true
}

/// The steps that go on in a head, if a path leads there by the steps that lead to the head.
pub(crate) fn steps_on<'s>(steps: &'s [Step], stem: &[Step]) -> Option<&'s [Step]>
    ensures { IfSome result (λ left. map tree_step steps.now ≡
        map tree_step stem.now ++ map tree_step left.now) }
{
    if steps.len() < stem.len() {
        return None;
    }
    let (front, left) = steps.split_at(stem.len());
    if !are_same_steps(front, stem) {
        return None;
    }
    Some(left)
}

/// The steps that go on in a head to the collection in which a path ends, if it leads there by the steps
/// that lead to the head.
pub(crate) fn steps_in_head<'s>(path: &'s Path, doc: usize, stem: &[Step]) -> Option<&'s [Step]>
    ensures { IfSome result (λ left. (path.now.doc ≡ doc) ×
        spec.EndsAt (map tree_step stem.now) (map tree_step left.now) (steps_of path.now)) }
{
    let Some((above, _)) = last_step(&path.steps) else {
        return None;
    };
    if path.doc != doc {
        return None;
    }
    let Some(left) = steps_on(above, stem) else {
        return None;
    };
    Some(left)
}

/// A place after the bytes in front of a head.
fn moved_place(before: usize, place: EditPlace, more: bool) -> SlotPlace
    requires order { place.start ≤ place.end }
    requires small { before + place.end < 2 ^ 64 }
    ensures start { result.start ≡ before + place.start }
    ensures end { result.end ≡ before + place.end }
    ensures more { result.more ≡ more }
{
    SlotPlace {
        start: before + place.start,
        end: before + place.end,
        more,
    }
}

/// The value that an operation puts in a collection of a head; nothing, where it does something else.
fn part_change<'s>(
    alloc: Global,
    at: &HeadInText<'_, '_, '_, '_, '_, '_>,
    op: &'s Op,
    near: &mut Near<'s>,
) -> Result<Option<HeadChange<'s>>, AllocError>
    requires there { spec.IsInText at.now }
    requires operand { HasOperand (operation_of op.now) }
    ensures { IfOk result (λ o. IfSome o (spec.ChangesAt (operation_of op.now) at.now)) }
{
    let Op::Replace(path, value) = op else {
        return Ok(None);
    };
    let Some(left) = steps_in_head(path, at.doc, at.stem) else {
        return Ok(None);
    };
    let Some((_, last)) = last_step(&path.steps) else {
        return Ok(None);
    };
    let Some(node) = collection_near(&at.head.node, left, near.above.as_mut_slice()) else {
        return Ok(None);
    };
    near.go_to(alloc, node, left, path)?;
    let Some(entry) = part_near(node, last, &mut near.last) else {
        return Ok(None);
    };
    let written = put_in_node(alloc, at.head.text, entry.node, value)?;
    let place = replace_place(entry.node);
    Ok(Some(HeadChange {
        place: moved_place(at.head.before, place, false),
        lead: place.lead,
        written,
        steps: left,
    }))
}

/// The item or entry that an operation puts into a collection of a head; nothing, where it does something
/// else.
fn more_change<'s>(
    alloc: Global,
    at: &HeadInText<'_, '_, '_, '_, '_, '_>,
    op: &'s Op,
    near: &mut Near<'s>,
) -> Result<Option<HeadChange<'s>>, AllocError>
    requires there { spec.IsInText at.now }
    requires operand { HasOperand (operation_of op.now) }
    ensures { IfOk result (λ o. IfSome o (spec.ChangesAt (operation_of op.now) at.now)) }
{
    let Op::Append(path, key, value) = op else {
        return Ok(None);
    };
    if path.doc != at.doc {
        return Ok(None);
    }
    let Some(left) = steps_on(&path.steps, at.stem) else {
        return Ok(None);
    };
    let Some(node) = collection_near(&at.head.node, left, near.above.as_mut_slice()) else {
        return Ok(None);
    };
    let put = more_in_node(alloc, node, key.as_deref(), value)?;
    let Some((place, written)) = put else {
        return Ok(None);
    };
    Ok(Some(HeadChange {
        place: moved_place(at.head.before, place, true),
        lead: place.lead,
        written: Some(written),
        steps: left,
    }))
}

/// What an operation changes in a collection of a head; nothing, where it does something else.
pub(crate) fn change_of<'s>(
    alloc: Global,
    at: &HeadInText<'_, '_, '_, '_, '_, '_>,
    op: &'s Op,
    near: &mut Near<'s>,
) -> Result<Option<HeadChange<'s>>, AllocError>
    requires there { spec.IsInText at.now }
    requires operand { HasOperand (operation_of op.now) }
    ensures { IfOk result (λ o. IfSome o (spec.ChangesAt (operation_of op.now) at.now)) }
{
    match op {
        Op::Replace(_, _) => part_change(alloc, at, op, near),
        Op::Append(_, _, _) => more_change(alloc, at, op, near),
        Op::Remove(_) | Op::LineComment(_, _) | Op::HeadComment(_, _) => Ok(None),
    }
}
