//! What an update does at one place.
ghost use Rattle.std.{specs.Prelude.◌≡◌, specs.String.string_bytes};
ghost use Rattle.yq_expr.{specs.EffectView.effect_at, specs.JudgedChanges.JudgesPut};
ghost use Rattle.yq_semantics.specs.Rooms.{comment_part, room_of};
ghost use Rattle.yq_documents.specs.Located.{steps_of};
ghost use Rattle.yq_eval.{specs.PlaceView.{path_of, place_of}, specs.TreeScalars.HasScalars};
ghost use Rattle.yq_core.specs.Values.{value_node};
ghost use Rattle.yq_semantics.specs.Changes as spec;

use crate::plans::put::put;
use crate::terms::right_value::right_value;
use std::alloc::Global;
use yq_core::Value;
use yq_documents::{Part, Path};
use yq_eval::{FoundPlace, Missing, NodePath};
use yq_lookup::CutText;
use yq_planner::{Change, added, copied, is_null};
use yq_semantics::{Comment, CommentPlace, ExprError, Refusal, Term};

/// What an update does at each place.
#[derive(Clone, Copy)]
pub(crate) enum Action<'a, 'v> {
    /// A value is put there.
    Put(&'v Value),
    /// The sum of terms, which are found from there, is put there.
    Modify(&'a [Term]),
    /// A value is added to what is there.
    Add(&'v Value),
    /// What is there is removed.
    Remove,
    /// A comment is set.
    SetComment(&'v Comment),
}

/// A value that is added at a place.
fn add(
    alloc: Global,
    place: &FoundPlace<'_, '_>,
    value: &Value,
) -> Result<Option<Change>, ExprError>
    ensures { JudgesPut place.now result
        (spec.add_at (place_of place.now) (value_node value.now)) }
{
    if is_null(value) {
        return Ok(None);
    }
    match place.missing {
        Missing::Nothing => added(alloc, &place.node, value).map(Some),
        Missing::Further(..) => put(alloc, place, copied(alloc, value)?),
    }
}

/// What is removed at a place: what is missing is not, and a root can't be.
fn remove(place: &FoundPlace<'_, '_>) -> Result<Option<Change>, ExprError>
    ensures { JudgesPut place.now result (spec.remove_at (place_of place.now)) }
{
    if let Missing::Further(..) = place.missing {
        return Ok(None);
    }
    match place.path {
        NodePath::Root => Err(Refusal::RootDelete.error()),
        NodePath::Below(..) => Ok(Some(Change::Removes)),
    }
}

/// The part of an entry or item that a comment is.
fn part(place: CommentPlace) -> Part
    ensures { result ≡ comment_part place }
{
    match place {
        CommentPlace::Line => Part::LineComment,
        CommentPlace::Head => Part::HeadComment,
    }
}

/// Whether the text has room for a comment of what is at a place of document `doc`. What is on the way
/// there is known then, so that the next place of the text is near.
pub(crate) fn has_room(
    alloc: Global,
    cut: &mut CutText<'_, '_>,
    path: &Path,
    comment: CommentPlace,
) -> bool
    ensures same { cut.new ≡ cut.old }
    ensures room { result ≡ (room_of cut.old path.now.doc).has comment (steps_of path.now) }
{
    let line = cut.go_along(alloc, path);
    cut.has_room_from(path, line, part(comment))
}

/// The text of a comment that is set at a place.
fn set_comment(
    alloc: Global,
    cut: &mut CutText<'_, '_>,
    path: &Path,
    comment: &Comment,
    place: &FoundPlace<'_, '_>,
) -> Result<Option<Change>, ExprError>
    requires { steps_of path.now ≡ path_of place.now.path }
    ensures same { cut.new ≡ cut.old }
    ensures change { JudgesPut place.now result
        (spec.comment_at (room_of cut.old path.now.doc) comment.now.place
        (string_bytes comment.now.text) (place_of place.now)) }
{
    if let Missing::Further(..) = place.missing {
        return Err(Refusal::NoPlaceForComment.error());
    }
    if !has_room(alloc, cut, path, comment.place) {
        return Err(Refusal::NoPlaceForComment.error());
    }
    let text = String::from_str(alloc, comment.text.as_str())?;
    Ok(Some(Change::SetsComment(comment.place, text)))
}

/// What is changed at a place of document `doc` of a text, before anything refuses it.
pub(crate) fn change_at<'a, 't>(
    alloc: Global,
    cut: &mut CutText<'_, '_>,
    path: &Path,
    effect: Action<'a, '_>,
    place: &FoundPlace<'a, 't>,
) -> Result<Option<Change>, ExprError>
    requires scalars { HasScalars (place_of place.now).node }
    requires path { steps_of path.now ≡ path_of place.now.path }
    ensures same { cut.new ≡ cut.old }
    ensures change { JudgesPut place.now result
        (effect_at path.now.doc (room_of cut.old path.now.doc) effect.entry
        (place_of place.now)) }
{
    match effect {
        Action::Put(value) => put(alloc, place, copied(alloc, value)?),
        Action::Modify(terms) => put(alloc, place, right_value(alloc, path.doc, terms, place)?),
        Action::Add(value) => add(alloc, place, value),
        Action::Remove => remove(place),
        Action::SetComment(comment) => set_comment(alloc, cut, path, comment, place),
    }
}
