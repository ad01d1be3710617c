//! What is changed at items and values of one node: the steps to it are kept once.
ghost use Rattle.std.specs.Prelude.{◌≡◌, ◌++◌, ◌∷◌, [], IfOk, IfSome, OnOk};
ghost use Rattle.yq_documents.specs.Located.{steps_of};
ghost use Rattle.yq_nodes.specs.Nodes.{node_of};
ghost use Rattle.yq_planner.{specs.ChangeView.{changes_below, changes_under}, specs.ValidChanges.{AreValidChanges, GivesValid, StayValid}};
ghost use Rattle.yq_expr.specs.JudgedChanges.{JudgesBelow, JudgesEachOf, MayJudgeEachOf, StaysAtNode};
ghost use Rattle.yq_eval.{specs.FoundView.child_places, specs.PlaceView.{node_step_of, path_of, place_of, places_of}};
ghost use Rattle.yq_eval.specs.TreeScalars.{HasScalars, HaveScalars};

use crate::plans::at_places::allowed_at;
use crate::plans::document::DocumentEffect;
use crate::plans::steps::step_below;
use std::alloc::{AllocError, Global};
use yq_core::Step;
use yq_documents::{Documents, Path};
use yq_eval::{FoundPlace, NodePath, NodeStep, at_place, owned, path_steps, step_to};
use yq_lookup::CutText;
use yq_planner::{ChangesUnder, PlacedChange};
use yq_semantics::ExprError;

/// What is changed so far at items or values of a node.
#[derive(Drop)]
struct ChildChanges<'d, 't> {
    cut: CutText<'d, 't>,
    /// The path of the node.
    node: Path,
    /// The path of each begins at the node.
    changes: Vec<PlacedChange>,
}

impl ChildChanges<'_, '_> {
    /// The changes, after the last one.
    fn ended(self) -> ChangesUnder
        ensures changes { changes_under result ≡ changes_below (steps_of self.entry.node) self.entry.changes.items }
        ensures same { result.changes.items ≡ self.entry.changes.items }
    {
        let ChildChanges { node, changes, .. } = self;
        let Path { steps: front, .. } = node;
        ChangesUnder { front, changes }
    }
}

/// Puts what is changed at the place of an item or value of the node, to which that step leads, after the changes
/// so far.
fn push_below<'a, 't>(
    alloc: Global,
    effect: &DocumentEffect<'a, '_, '_>,
    step: NodeStep<'a>,
    place: &FoundPlace<'a, 't>,
    so_far: &mut ChildChanges<'_, '_>,
) -> Result<(), ExprError>
    requires scalars { HasScalars (place_of place.now).node }
    requires doc { so_far.old.node.doc ≡ effect.now.doc }
    requires path { path_of place.now.path ≡ steps_of so_far.old.node ++ node_step_of step ∷ [] }
    ensures stays { OnOk result (StaysAtNode so_far.old so_far.new) }
    ensures change { JudgesBelow effect.now place.now so_far.old so_far.new result }
    ensures valid { StayValid result so_far.old.changes.items so_far.new.changes.items }
{
    so_far.node.steps.push(owned(alloc, step)?)?;
    let allowed = allowed_at(alloc, &mut so_far.cut, effect, &so_far.node, place);
    let found = at_place(alloc, place, allowed)?;
    let Some(last) = so_far.node.steps.pop() else {
        unreachable!();
    };
    if let Some(change) = found {
        let path = vec![in alloc; last]?;
        so_far.changes.push(PlacedChange { path, change })?;
    }
    Ok(())
}

/// What is changed at the places of all items or values of the node at a place.
pub(crate) fn at_children<'a, 't>(
    alloc: Global,
    documents: &Documents<'_>,
    effect: &DocumentEffect<'a, '_, '_>,
    parent: &'a FoundPlace<'a, 't>,
) -> Result<ChangesUnder, ExprError>
    requires { HaveScalars (child_places (path_of parent.now.path) (node_of parent.now.node)) }
    ensures changes { JudgesEachOf effect.now documents.now
        (child_places (path_of parent.now.path) (node_of parent.now.node)) result }
    ensures valid { GivesValid result }
{
    let count = parent.node.count();
    let mut so_far = ChildChanges {
        cut: CutText::of(documents),
        node: Path {
            doc: effect.doc,
            steps: path_steps(alloc, parent.path)?,
        },
        changes: Vec::with_capacity(alloc, count)?,
    };
    let mut children = parent.node.children();
    let mut before = 0;
    'children: while before < count {
        let Some(child) = children.next() else {
            return Ok(so_far.ended());
        };
        let step = step_to(&child, before);
        let place = FoundPlace::nth_below(&parent.path, before, &child);
        push_below(alloc, effect, step, &place, &mut so_far)?;
        before += 1;
    }
    Ok(so_far.ended())
}

/// What is changed at each of places, if all are items or values of the node to which these steps lead.
pub(crate) fn at_each_below<'a, 't>(
    alloc: Global,
    documents: &Documents<'_>,
    effect: &DocumentEffect<'a, '_, '_>,
    places: &[FoundPlace<'a, 't>],
    front: Vec<Step>,
) -> Result<Option<ChangesUnder>, ExprError>
    requires { HaveScalars (places_of places.now) }
    ensures changes { MayJudgeEachOf effect.now documents.now (places_of places.now) result }
    ensures valid { IfOk result (λ o. IfSome o (λ x. AreValidChanges x.changes.items)) }
{
    let mut so_far = ChildChanges {
        cut: CutText::of(documents),
        node: Path {
            doc: effect.doc,
            steps: front,
        },
        changes: Vec::with_capacity(alloc, places.len())?,
    };
    'places: for place in places {
        let Some(step) = step_below(place.path, &so_far.node.steps) else {
            return Ok(None);
        };
        push_below(alloc, effect, step, place, &mut so_far)?;
    }
    Ok(Some(so_far.ended()))
}

/// The steps to the node of which the first and the last one of places are items or values, if they are those of
/// one node, which isn't the root.
pub(crate) fn node_above(
    alloc: Global,
    places: &[FoundPlace<'_, '_>],
) -> Result<Option<Vec<Step>>, AllocError> {
    let [first, .., last] = places else {
        return Ok(None);
    };
    let NodePath::Below(front, _) = first.path else {
        return Ok(None);
    };
    let steps = path_steps(alloc, *front)?;
    if steps.is_empty() || step_below(last.path, &steps).is_none() {
        return Ok(None);
    }
    Ok(Some(steps))
}
