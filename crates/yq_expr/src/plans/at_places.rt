//! What is changed at each of places.
ghost use Rattle.std.specs.Prelude.{◌≡◌, IfOk, IfSome};
ghost use Rattle.yq_documents.specs.Located.{steps_of};
ghost use Rattle.yq_expr.specs.JudgedChanges.{JudgesAllowed, JudgesAllowedPut, JudgesEach, JudgesEachOf, action_in, effect_of};
ghost use Rattle.yq_planner.{specs.ChangeView.change_of, specs.ValidChanges.{GivesValid, IsValidChange, StayValid}};
ghost use Rattle.yq_eval.{specs.FoundView.found_places, specs.PlaceView.{path_of, place_of, places_of}};
ghost use Rattle.yq_eval.specs.TreeScalars.{HasScalars, HaveScalars};

use crate::plans::at_node::{at_children, at_each_below, node_above};
use crate::plans::document::{DocumentEffect, DocumentPlaces};
use crate::plans::effect::{Action, change_at};
use crate::plans::many_keys::check_depth;
use crate::push_change;
use std::alloc::Global;
use yq_documents::{Documents, Path};
use yq_eval::{FoundPlace, FoundPlaces, at_place, path_steps};
use yq_lookup::CutText;
use yq_planner::{Aliases, Change, ChangesUnder, PlacedChange, allow};
use yq_semantics::ExprError;

/// Puts what is changed at a place after other changes.
pub(crate) fn push_effect<'a, 't>(
    alloc: Global,
    cut: &mut CutText<'_, '_>,
    effect: &DocumentEffect<'a, '_, '_>,
    place: &FoundPlace<'a, 't>,
    changes: &mut Vec<PlacedChange>,
) -> Result<(), ExprError>
    requires { HasScalars (place_of place.now).node }
    ensures same { cut.new ≡ cut.old }
    ensures change { JudgesAllowed effect.now.aliases.now (place_of place.now)
        (effect_of effect.now cut.old (place_of place.now))
        changes.old.items changes.new.items result }
    ensures valid { StayValid result changes.old.items changes.new.items }
{
    let path = Path {
        doc: effect.doc,
        steps: path_steps(alloc, place.path)?,
    };
    check_depth(alloc, effect.doc, effect.action, place)?;
    match change_at(alloc, cut, &path, effect.action, place)? {
        None => Ok(()),
        Some(change) => {
            let changed = PlacedChange {
                path: path.steps,
                change,
            };
            push_change(alloc, effect.aliases, place, changed, changes)
        }
    }
}

/// What is changed at a place, if nothing refuses it.
pub(crate) fn allowed_at<'a, 't>(
    alloc: Global,
    cut: &mut CutText<'_, '_>,
    effect: &DocumentEffect<'a, '_, '_>,
    path: &Path,
    place: &FoundPlace<'a, 't>,
) -> Result<Option<Change>, ExprError>
    requires scalars { HasScalars (place_of place.now).node }
    requires doc { path.now.doc ≡ effect.now.doc }
    requires path { steps_of path.now ≡ path_of place.now.path }
    ensures same { cut.new ≡ cut.old }
    ensures change { JudgesAllowedPut effect.now cut.old place.now result }
    ensures valid { IfOk result (λ o. IfSome o (λ c. IsValidChange (change_of c))) }
{
    check_depth(alloc, effect.doc, effect.action, place)?;
    let Some(change) = change_at(alloc, cut, path, effect.action, place)? else {
        return Ok(None);
    };
    allow(
        alloc,
        effect.aliases,
        &place.node,
        path.steps.len(),
        &change,
    )?;
    Ok(Some(change))
}

/// What is changed at each of places.
fn at_each<'a, 't>(
    alloc: Global,
    documents: &Documents<'_>,
    effect: &DocumentEffect<'a, '_, '_>,
    places: &[FoundPlace<'a, 't>],
) -> Result<ChangesUnder, ExprError>
    requires { HaveScalars (places_of places.now) }
    ensures changes { JudgesEachOf effect.now documents.now (places_of places.now) result }
    ensures valid { GivesValid result }
{
    let mut changes = Vec::with_capacity(alloc, places.len())?;
    let mut cut = CutText::of(documents);
    'places: for place in places {
        let pushed = push_effect(alloc, &mut cut, effect, place, &mut changes);
        at_place(alloc, place, pushed)?;
    }
    Ok(ChangesUnder::of_root(alloc, changes))
}

/// What is changed at each of listed places: where all are items or values of one node, the steps to it are kept once.
fn at_listed<'a, 't>(
    alloc: Global,
    documents: &Documents<'_>,
    effect: &DocumentEffect<'a, '_, '_>,
    places: &[FoundPlace<'a, 't>],
) -> Result<ChangesUnder, ExprError>
    requires { HaveScalars (places_of places.now) }
    ensures changes { JudgesEachOf effect.now documents.now (places_of places.now) result }
    ensures valid { GivesValid result }
{
    let above = node_above(alloc, places)?;
    if let Some(front) = above {
        let below = at_each_below(alloc, documents, effect, places, front)?;
        if let Some(changes) = below {
            return Ok(changes);
        }
    }
    at_each(alloc, documents, effect, places)
}

/// What an action changes at each of the places that a pipe found in a document, which has those aliases.
pub(crate) fn at_found<'a, 't>(
    alloc: Global,
    found: &DocumentPlaces<'a, 't>,
    aliases: &Aliases<'_>,
    action: Action<'a, '_>,
) -> Result<ChangesUnder, ExprError>
    requires { HaveScalars (found_places found.now.places) }
    ensures changes { JudgesEach aliases.now (found_places found.now.places)
        (action_in found.now.document action.entry) result }
    ensures valid { GivesValid result }
{
    let effect = DocumentEffect {
        doc: found.document.doc,
        aliases,
        action,
    };
    match &found.places {
        FoundPlaces::Listed(places) => at_listed(alloc, found.document.documents, &effect, places),
        FoundPlaces::Children(parent) => {
            at_children(alloc, found.document.documents, &effect, parent)
        }
    }
}
