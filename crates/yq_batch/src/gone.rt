//! What goes where an item or entry is taken out of what is left of a flow collection of a head.
ghost use Rattle.std.specs.Prelude.{◌≡◌, Some, None, IfSome};
ghost use Rattle.yq_core.{specs.Entries.end_of, specs.Keys.HasUniqueKeys, specs.Trees.placed_tree, specs.View.inline_view};
ghost use Rattle.yq_documents.specs.Located.{steps_of};
ghost use Rattle.yq_edit_laws.specs.NearParts.{head_with};
ghost use Rattle.yq_batch.specs.Runs.{IsInText};
ghost use Rattle.yq_batch.specs.RemovalRuns as spec;

use crate::change::are_same_steps;
use crate::head::HeadInText;
use crate::left::{content_of, count_of, end_of, left_place};
use crate::removals::RemovalRun;
use yq_core::{Form, Inline, Step};
use yq_documents::Path;
use yq_edit_laws::{last_step, part_index};
use yq_places::collection_along;

/// What is left of the collection from which an item or entry was taken out.
#[derive(Clone, Copy)]
pub(crate) struct LeftOf<'s> {
    /// The steps that lead to it in the head.
    pub(crate) steps: &'s [Step],
    /// How many of its first items or entries.
    pub(crate) count: usize,
    /// Whether others come after these, and perhaps begin with a document marker.
    pub(crate) after: Option<bool>,
    /// How many bytes come after it.
    pub(crate) following: usize,
}

/// What an operation exchanges in the text of a run, and what is left of its collection then.
#[derive(Clone, Copy)]
pub(crate) struct Removed<'s> {
    pub(crate) start: usize,
    pub(crate) end: usize,
    /// What comes there.
    pub(crate) new: &'static str,
    pub(crate) known: Option<LeftOf<'s>>,
}

/// What is left of a collection to which steps lead: as is known of the last one, or all of one that ends before
/// what was taken out.
fn left_in<'s>(
    steps: &'s [Step],
    before: usize,
    node: &Inline<'_>,
    known: Option<LeftOf<'s>>,
    run: &RemovalRun,
) -> Option<LeftOf<'s>>
    ensures { IfSome result (spec.HasLeft steps.now known.entry before node.now run.now) }
{
    if let Some(left) = known {
        if are_same_steps(left.steps, steps) {
            return Some(left);
        }
    }
    let end = end_of(node);
    if before > run.keep || end > run.keep - before {
        return None;
    }
    let following = run.text.len().checked_sub(before + end)?;
    Some(LeftOf {
        steps,
        count: count_of(node),
        after: None,
        following,
    })
}

/// What goes with the item or entry in which a path ends, of what is left of its collection.
fn part_gone<'s>(
    at: &HeadInText<'_, '_, '_, '_, '_, '_>,
    path: &Path,
    steps: &'s [Step],
    node: &Inline<'_>,
    left: LeftOf<'s>,
) -> Option<Removed<'s>>
    requires { HasUniqueKeys (placed_tree (inline_view node.now)) }
    ensures { IfSome result (spec.PartGoes (steps_of path.now) (head_with at.now.head steps.entry)
        (inline_view node.now) left.entry) }
{
    let (_, last) = last_step(&path.steps)?;
    let index = part_index(node, last, left.count)?;
    let place = left_place(at.head.text.as_bytes(), node, index, left.count, left.after)?;
    let start = at.head.before.checked_add(place.start)?;
    let end = at.head.before.checked_add(place.end)?;
    let following = left.following;
    let after = place.after;
    Some(Removed {
        start,
        end,
        new: "",
        known: Some(LeftOf {
            steps,
            count: index,
            after,
            following,
        }),
    })
}

/// An empty collection of the kind of a node.
fn empty_of(node: &Inline<'_>) -> Option<&'static str>
    ensures { IfSome result (λ s. spec.empty_text (inline_view node.now) ≡ Some s.now) }
{
    match &node.form {
        Form::List(_) => Some("[]"),
        Form::Map(_) => Some("{}"),
        Form::Empty | Form::Alias(_) | Form::Scalar(..) => None,
    }
}

/// The place of a collection of which one item or entry is left, and what comes there: an empty one.
fn emptied<'s>(
    at: &HeadInText<'_, '_, '_, '_, '_, '_>,
    node: &Inline<'_>,
    left: LeftOf<'s>,
    run: &RemovalRun,
) -> Option<Removed<'s>>
    requires sole { left.count ≡ 1 }
    requires alone { left.after ≡ None }
    ensures { IfSome result (spec.IsEmptied at.now node.now left.entry run.now) }
{
    let new = empty_of(node)?;
    let start = at.head.before.checked_add(content_of(node))?;
    let end = run.text.len().checked_sub(left.following)?;
    Some(Removed {
        start,
        end,
        new,
        known: None,
    })
}

/// The same of a collection in another one.
fn sole_gone<'s>(
    at: &HeadInText<'_, '_, '_, '_, '_, '_>,
    steps: &'s [Step],
    node: &Inline<'_>,
    left: LeftOf<'s>,
    run: &RemovalRun,
) -> Option<Removed<'s>>
    requires sole { left.count ≡ 1 }
    requires alone { left.after ≡ None }
    ensures { IfSome result (spec.SoleGone at.now steps.entry node.now left.entry run.now) }
{
    let _own = last_step(steps)?;
    emptied(at, node, left, run)
}

/// The same of a head's own collection, to which no steps lead on.
pub(crate) fn own_gone<'s>(
    at: &HeadInText<'_, '_, '_, '_, '_, '_>,
    steps: &'s [Step],
    known: Option<LeftOf<'s>>,
    run: &RemovalRun,
) -> Option<Removed<'s>>
    ensures { IfSome result (spec.OwnGoes at.now steps.entry known.entry run.now) }
{
    if !steps.is_empty() {
        return None;
    }
    let node = collection_along(&at.head.node, steps)?;
    let left = left_in(steps, at.head.before, node, known, run)?;
    if left.count != 1 || left.after.is_some() {
        return None;
    }
    emptied(at, node, left, run)
}

/// What goes where the item or entry is taken out in which a path ends, if steps lead on to its collection in a head,
/// and what is left of that is known; nothing, where it is the only one of the head's own collection.
pub(crate) fn gone_in_head<'s>(
    at: &HeadInText<'_, '_, '_, '_, '_, '_>,
    path: &Path,
    steps: &'s [Step],
    known: Option<LeftOf<'s>>,
    run: &RemovalRun,
) -> Option<Removed<'s>>
    requires { IsInText at.now }
    ensures { IfSome result (spec.GoesInHead (steps_of path.now) (head_with at.now.head steps.entry)
        known.entry run.now) }
{
    let node = collection_along(&at.head.node, steps)?;
    let left = left_in(steps, at.head.before, node, known, run)?;
    if left.count == 1 && left.after.is_none() {
        return sole_gone(at, steps, node, left, run);
    }
    part_gone(at, path, steps, node, left)
}
