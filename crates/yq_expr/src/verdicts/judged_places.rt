//! Judging what is changed at each of places: one change after the other, each let go before the next one
//! is made.
ghost use Rattle.std.specs.Prelude.{◌≡◌};
ghost use Rattle.yq_nodes.specs.Nodes.{node_of};
ghost use Rattle.yq_expr.specs.JudgedChanges.{JudgesEachVerdict, JudgesEffect, JudgesEffects, action_in};
ghost use Rattle.yq_eval.{specs.FoundView.{child_places, found_places}, specs.PlaceView.{path_of, place_of, places_of}};
ghost use Rattle.yq_eval.specs.TreeScalars.{HasScalars, HaveScalars};

use crate::plans::at_places::push_effect;
use crate::plans::document::{DocumentEffect, DocumentPlaces};
use crate::plans::effect::Action;
use crate::sizes::sums::small_sum;
use std::alloc::Global;
use yq_documents::Documents;
use yq_eval::{FoundPlace, FoundPlaces, at_place};
use yq_lookup::CutText;
use yq_planner::Aliases;
use yq_semantics::ExprError;

/// Judges what is changed at a place; a refusal is there, if its place isn't known.
fn judge_effect<'a, 't>(
    alloc: Global,
    cut: &mut CutText<'_, '_>,
    effect: &DocumentEffect<'a, '_, '_>,
    place: &FoundPlace<'a, 't>,
) -> Result<(), ExprError>
    requires { HasScalars (place_of place.now).node }
    ensures same { cut.new ≡ cut.old }
    ensures verdict { JudgesEffect effect.now cut.old (place_of place.now) result }
{
    let mut changes = Vec::new(alloc);
    let pushed = push_effect(alloc, cut, effect, place, &mut changes);
    at_place(alloc, place, pushed)
}

/// The same, where the value that a place gets is found from there: by a small value, if that may be large.
fn judge_place<'a, 't>(
    alloc: Global,
    cut: &mut CutText<'_, '_>,
    effect: &DocumentEffect<'a, '_, '_>,
    place: &FoundPlace<'a, 't>,
) -> Result<(), ExprError>
    requires { HasScalars (place_of place.now).node }
    ensures same { cut.new ≡ cut.old }
    ensures verdict { JudgesEffect effect.now cut.old (place_of place.now) result }
{
    let Action::Modify(terms) = effect.action else {
        return judge_effect(alloc, cut, effect, place);
    };
    let text = cut.text();
    let length = text.front.len().saturating_add(text.back.len());
    match small_sum(alloc, effect.doc, terms, place, length)? {
        None => judge_effect(alloc, cut, effect, place),
        Some(small) => {
            let put = DocumentEffect::of(effect.doc, effect.aliases, Action::Put(&small));
            judge_effect(alloc, cut, &put, place)
        }
    }
}

/// Judges what is changed at each of places.
fn judge_each<'a, 't>(
    alloc: Global,
    documents: &Documents<'_>,
    effect: &DocumentEffect<'a, '_, '_>,
    places: &[FoundPlace<'a, 't>],
) -> Result<(), ExprError>
    requires { HaveScalars (places_of places.now) }
    ensures { JudgesEffects effect.now documents.now (places_of places.now) result }
{
    let mut cut = CutText::of(documents);
    'places: for place in places {
        judge_place(alloc, &mut cut, effect, place)?;
    }
    Ok(())
}

/// Judges what is changed at the places of all items or values of the node at a place.
fn judge_children<'a, 't>(
    alloc: Global,
    documents: &Documents<'_>,
    effect: &DocumentEffect<'a, '_, '_>,
    parent: &'a FoundPlace<'a, 't>,
) -> Result<(), ExprError>
    requires { HaveScalars (child_places (path_of parent.now.path) (node_of parent.now.node)) }
    ensures { JudgesEffects effect.now documents.now
        (child_places (path_of parent.now.path) (node_of parent.now.node)) result }
{
    let count = parent.node.count();
    let mut cut = CutText::of(documents);
    let mut children = parent.node.children();
    let mut before = 0;
    'children: while before < count {
        let Some(child) = children.next() else {
            return Ok(());
        };
        let place = FoundPlace::nth_below(&parent.path, before, &child);
        judge_place(alloc, &mut cut, effect, &place)?;
        before += 1;
    }
    Ok(())
}

/// Judges what an action changes at each of the places that a pipe found in a document, which has those aliases.
pub(crate) fn judge_found<'a, 't>(
    alloc: Global,
    found: &DocumentPlaces<'a, 't>,
    aliases: &Aliases<'_>,
    action: Action<'a, '_>,
) -> Result<(), ExprError>
    requires { HaveScalars (found_places found.now.places) }
    ensures { JudgesEachVerdict aliases.now (found_places found.now.places)
        (action_in found.now.document action.entry) result }
{
    let effect = DocumentEffect {
        doc: found.document.doc,
        aliases,
        action,
    };
    match &found.places {
        FoundPlaces::Listed(places) => judge_each(alloc, found.document.documents, &effect, places),
        FoundPlaces::Children(parent) => {
            judge_children(alloc, found.document.documents, &effect, parent)
        }
    }
}
