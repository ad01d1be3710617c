//! What an update changes in documents.
ghost use Rattle.std.specs.Prelude.{◌≡◌, ◌<◌, ◌∷◌, [], IfOk, IfSome, length, map};
ghost use Rattle.yq_core.{specs.Anchors.names_of, specs.Values.value_node};
ghost use Rattle.yq_nodes.specs.Nodes.{node_of};
ghost use Rattle.yq_planner.{specs.ChangeView.all_changes_under, specs.Indexes.HasAliases, specs.ValidChanges.{AreAllValid, GivesValid}};
ghost use Rattle.yq_semantics.{specs.Judgement.Judges, specs.View.{stage_of, update_of}};
ghost use Rattle.yq_eval.{specs.FoundView.found_places, specs.PlaceView.place_of, specs.TreeScalars.HasScalars};
ghost use Rattle.yq_expr.specs.DocumentPlaces.{AreInDocument, IsDocumentRoot};
ghost use Rattle.yq_expr.specs.JudgedChanges.{JudgesChanges, JudgesEach, changes_inside, changes_of_all, changes_there, with_right};
ghost use Rattle.yq_semantics.specs.Changes as spec;

use crate::plans::at_places::at_found;
use crate::plans::document::{DocumentPlaces, DocumentRoot};
use crate::plans::effect::Action;
use crate::plans::many_keys::check_depth;
use crate::plans::put::put;
use crate::push_change;
use crate::terms::right_value::right_value;
use bumpalo::Bump;
use std::alloc::Global;
use yq_core::Value;
use yq_documents::Documents;
use yq_eval::{FoundPlace, FoundPlaces, at_place, find_places, path_steps};
use yq_nodes::Node;
use yq_planner::{Aliases, ChangesUnder, PlacedChange, aliases_of, has_comment};
use yq_semantics::{Assignment, ExprError, Operator, Refusal, Stage, Term, Update, in_document};

/// What an update changes at places of a document.
pub(crate) fn changes_at<'a, 't>(
    alloc: Global,
    found: &DocumentPlaces<'a, 't>,
    update: &'a Update,
) -> Result<ChangesUnder, ExprError>
    requires { AreInDocument found.now }
    ensures changes { JudgesChanges result (changes_there found.now update.now) }
    ensures valid { GivesValid result }
{
    if found.places.is_empty() {
        return Ok(ChangesUnder::of_root(alloc, Vec::new(alloc)));
    }
    let aliases = aliases_of(alloc, &found.document.root)?;
    match update {
        Update::Assign(assignment) => assign(alloc, found, &aliases, assignment),
        Update::Delete(_) => at_found(alloc, found, &aliases, Action::Remove),
        Update::Comment(comment) => at_found(alloc, found, &aliases, Action::SetComment(comment)),
    }
}

/// The place that is the only one.
fn sole<'p, 'a, 't>(places: &'p FoundPlaces<'a, 't>) -> Option<&'p FoundPlace<'a, 't>>
    ensures { IfSome result (λ p. found_places places.now ≡ place_of p.now ∷ []) }
{
    let FoundPlaces::Listed(places) = places else {
        return None;
    };
    let places: &[FoundPlace<'a, 't>] = places;
    match places {
        [place] => Some(place),
        _ => None,
    }
}

/// What a value changes that is put at the only place, in a document of that number with those aliases: it isn't
/// copied.
fn put_at<'a, 't>(
    alloc: Global,
    doc: usize,
    aliases: &Aliases<'_>,
    place: &FoundPlace<'a, 't>,
    value: Value,
) -> Result<ChangesUnder, ExprError>
    requires { HasScalars (place_of place.now).node }
    ensures changes { JudgesEach aliases.now (place_of place.now ∷ [])
        (λ p. spec.put_with_path p (value_node value)) result }
    ensures valid { GivesValid result }
{
    check_depth(alloc, doc, Action::Put(&value), place)?;
    let path = path_steps(alloc, place.path)?;
    let mut changes = Vec::with_capacity(alloc, 1)?;
    if let Some(change) = put(alloc, place, value)? {
        push_change(
            alloc,
            aliases,
            place,
            PlacedChange { path, change },
            &mut changes,
        )?;
    }
    Ok(ChangesUnder::of_root(alloc, changes))
}

/// What a right side changes that is added, or put, at each of places of a document, which has those aliases.
fn value_each<'a, 't>(
    alloc: Global,
    found: &DocumentPlaces<'a, 't>,
    aliases: &Aliases<'_>,
    adds: bool,
    right: &'a [Term],
) -> Result<ChangesUnder, ExprError>
    requires places { AreInDocument found.now }
    requires aliases { HasAliases (names_of (node_of found.now.document.root)) aliases.now }
    requires some { 0 < length (found_places found.now.places) }
    ensures changes { JudgesChanges result (with_right found.now adds right.now) }
    ensures valid { GivesValid result }
{
    let from = FoundPlace::of_root(&found.document.root);
    let value = right_value(alloc, found.document.doc, right, &from)?;
    if adds {
        return at_found(alloc, found, aliases, Action::Add(&value));
    }
    match sole(&found.places) {
        Some(place) => {
            let put = put_at(alloc, found.document.doc, aliases, place, value);
            at_place(alloc, place, put)
        }
        None => at_found(alloc, found, aliases, Action::Put(&value)),
    }
}

/// What an assignment changes at places of a document, which has those aliases.
fn assign<'a, 't>(
    alloc: Global,
    found: &DocumentPlaces<'a, 't>,
    aliases: &Aliases<'_>,
    assignment: &'a Assignment,
) -> Result<ChangesUnder, ExprError>
    requires places { AreInDocument found.now }
    requires aliases { HasAliases (names_of (node_of found.now.document.root)) aliases.now }
    requires some { 0 < length (found_places found.now.places) }
    ensures changes { JudgesChanges result (changes_there found.now (Update.Assign assignment.now)) }
    ensures valid { GivesValid result }
{
    let right: &[Term] = &assignment.right;
    match assignment.operator {
        Operator::Set => value_each(alloc, found, aliases, false, right),
        Operator::Add => value_each(alloc, found, aliases, true, right),
        Operator::Modify => at_found(alloc, found, aliases, Action::Modify(right)),
    }
}

/// The pipe of an update's left side.
pub(crate) fn left(update: &Update) -> &[Stage]
    ensures { map stage_of result.now ≡ spec.left_pipe (update_of update.now) }
{
    match update {
        Update::Assign(assignment) => &assignment.left,
        Update::Delete(stages) => stages,
        Update::Comment(comment) => &comment.left,
    }
}

/// What an update changes in a document.
fn changes_inside<'a>(
    alloc: Global,
    document: DocumentRoot<'a, '_>,
    update: &'a Update,
) -> Result<ChangesUnder, ExprError>
    requires { IsDocumentRoot document }
    ensures changes { JudgesChanges result (changes_inside document.entry update.now) }
    ensures valid { GivesValid result }
{
    let bump = Bump::new(alloc);
    let places = find_places(alloc, &bump, document.doc, left(update), document.root)?;
    changes_at(alloc, &DocumentPlaces { document, places }, update)
}

/// The same; a refusal is in that document.
fn changes_in<'a>(
    alloc: Global,
    document: DocumentRoot<'a, '_>,
    update: &'a Update,
) -> Result<ChangesUnder, ExprError>
    requires { IsDocumentRoot document }
    ensures changes { JudgesChanges result (changes_inside document.entry update.now) }
    ensures valid { GivesValid result }
{
    in_document(document.doc, changes_inside(alloc, document, update))
}

/// What an update changes in each document, or the first refusal.
pub(crate) fn changes(
    alloc: Global,
    update: &Update,
    documents: &Documents<'_>,
) -> Result<Vec<ChangesUnder>, ExprError>
    ensures changes { Judges (λ v. all_changes_under v.items) result
        (changes_of_all update.now documents.now) }
    ensures valid { IfOk result (λ v. AreAllValid v.items) }
{
    if !has_comment(update) {
        return Err(Refusal::BadCommentText.error());
    }
    documents.are_ready();
    let mut changes = Vec::new(alloc);
    'documents: for doc in 0..documents.count() {
        let root = Node::root(documents, doc);
        let document = DocumentRoot {
            documents,
            doc,
            root,
        };
        changes.push(changes_in(alloc, document, update)?)?;
    }
    Ok(changes)
}
