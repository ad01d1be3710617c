//! How much memory the operations of an assignment take, place by place.
ghost use Rattle.std.specs.Prelude.{◌≡◌, ◌<◌, ◌≤◌, IfErr, IfOk, length};
ghost use Rattle.yq_nodes.specs.Nodes.{node_of};
ghost use Rattle.yq_semantics.specs.Judgement.{ExprError};
ghost use Rattle.yq_eval.{specs.PlaceView.{place_of, places_of}, specs.TreeScalars.{HasScalars, HaveScalars}};
ghost use Rattle.yq_expr.specs.Parts.{values_limit};
ghost use Rattle.yq_failure.specs.declared.failure.Failure.TheVariants as failure;

use crate::memory::path_weights::path_weight;
use crate::memory::weights::{VALUES_LIMIT, ValueWeight, weight};
use crate::plans::document::DocumentRoot;
use crate::sizes::oversized::is_oversized;
use crate::sizes::sum_sizes::ITEMS_LIMIT;
use crate::sizes::sums::may_be_large;
use crate::terms::right_value::{right_value, term_value};
use crate::terms::same_term::{count_same, stays};
use bumpalo::Bump;
use std::alloc::{AllocError, Global};
use yq_core::{Kind, Value};
use yq_documents::Documents;
use yq_eval::{FoundPlace, find};
use yq_nodes::{Node, NodeKind};
use yq_semantics::{Assignment, ExprError, Stage, Term};

/// How many bytes a value takes at least that no text can hold, more or less.
const VALUE_MOST: usize = 8 * ITEMS_LIMIT;

/// How many bytes the value of a term takes; nothing, where it is refused.
fn term_weight<'a, 't>(
    alloc: Global,
    doc: usize,
    term: &'a Term,
    place: &FoundPlace<'a, 't>,
) -> Result<usize, AllocError>
    requires { HasScalars (place_of place.now).node }
{
    if let Term::Literal(value) = term {
        return Ok(weight(value));
    }
    match term_value(alloc, doc, term, place) {
        Ok(value) => Ok(weight(&value)),
        Err(ExprError::Fault(_)) => Ok(0),
        Err(ExprError::Memory) => Err(AllocError),
    }
}

/// How many bytes the values of terms take together. Terms that are known to be the same are weighed once.
fn terms_weight<'a, 't>(
    alloc: Global,
    doc: usize,
    terms: &'a [Term],
    place: &FoundPlace<'a, 't>,
) -> Result<usize, AllocError>
    requires { HasScalars (place_of place.now).node }
{
    let mut sum = 0usize;
    let mut rest = terms;
    'terms: while let [term, after @ ..] = rest {
        let again = count_same(term, after);
        let weight = term_weight(alloc, doc, term, place)?;
        sum = sum.saturating_add(weight.saturating_mul(again + 1));
        rest = &after[again..];
    }
    Ok(sum)
}

/// Whether the sum of terms takes as much as their values, more or less: the first one is a list, or a string.
fn adds_up<'a>(terms: &[Term], place: &FoundPlace<'a, '_>) -> bool {
    match terms {
        [Term::Literal(Value::List(_)), ..] => true,
        [Term::Pipe(pipe), ..] if stays(pipe) => match place.found() {
            Some(node) => matches!(node.kind(), NodeKind::List | NodeKind::Scalar(Kind::Text)),
            None => false,
        },
        _ => false,
    }
}

/// How many bytes the value takes that terms give from a place in a document, more or less: as many as a number may say,
/// where no text can hold it; nothing, where they are refused.
fn value_there<'a, 't>(
    alloc: Global,
    document: &DocumentRoot<'a, 't>,
    right: &'a [Term],
    place: &FoundPlace<'a, 't>,
) -> Result<usize, ExprError>
    requires { HasScalars (place_of place.now).node }
    ensures { IfErr result (λ e. e ≡ failure.Memory) }
{
    let length = document.text_length();
    if right.len().saturating_mul(length) > VALUE_MOST
        && is_oversized(alloc, document.doc, right, place, length)?
    {
        return Ok(usize::MAX);
    }
    if may_be_large(right, length) && adds_up(right, place) {
        return Ok(terms_weight(alloc, document.doc, right, place)?);
    }
    match right_value(alloc, document.doc, right, place) {
        Ok(value) => Ok(weight(&value)),
        Err(ExprError::Fault(_)) => Ok(0),
        Err(ExprError::Memory) => Err(ExprError::Memory),
    }
}

/// How many bytes the operation at a place in a document takes: its value and its path.
fn weight_there<'a, 't>(
    alloc: Global,
    document: &DocumentRoot<'a, 't>,
    value: ValueWeight<'a>,
    place: &FoundPlace<'a, 't>,
) -> Result<usize, ExprError>
    requires { HasScalars (place_of place.now).node }
    ensures { IfErr result (λ e. e ≡ failure.Memory) }
{
    let weight = match value {
        ValueWeight::Alike(weight) => weight,
        ValueWeight::Found(right) => value_there(alloc, document, right, place)?,
    };
    Ok(weight.saturating_add(path_weight(place)))
}

/// For the operations at how many of the first places there is room; and how many bytes of room are left then. Where
/// all the room is left that a part has, there is room for one at least.
pub(crate) fn count_within<'a, 't>(
    alloc: Global,
    document: &DocumentRoot<'a, 't>,
    value: ValueWeight<'a>,
    places: &[FoundPlace<'a, 't>],
    room: usize,
) -> Result<(usize, usize), ExprError>
    requires { HaveScalars (places_of places.now) }
    ensures some { room ≡ values_limit → IfOk result (λ x. 0 < length places.now → 0 < x.0) }
    ensures within { IfOk result (λ x. x.0 ≤ length places.now) }
    ensures err { IfErr result (λ e. e ≡ failure.Memory) }
{
    let mut count = 0;
    let mut left = room;
    'places: for place in places {
        let weight = weight_there(alloc, document, value, place)?;
        if weight >= left && left < VALUES_LIMIT {
            return Ok((count, 0));
        }
        left = left.saturating_sub(weight);
        count += 1;
    }
    Ok((count, left))
}

/// How many bytes of room are left after the operations of an assignment by `|=` at all places of a document, if
/// there is room for them.
fn rest_after<'a>(
    alloc: Global,
    document: DocumentRoot<'a, '_>,
    assignment: &'a Assignment,
    room: usize,
) -> Result<Option<usize>, ExprError>
    requires { HasScalars (node_of document.root) }
{
    let bump = Bump::new(alloc);
    let left: &[Stage] = &assignment.left;
    let right: &[Term] = &assignment.right;
    let places = find(alloc, &bump, document.doc, left, document.root)?;
    let value = ValueWeight::Found(right);
    let (count, rest) = count_within(alloc, &document, value, &places, room)?;
    if count < places.len() || rest == 0 {
        return Ok(None);
    }
    Ok(Some(rest))
}

/// The same, where a refusal is left to the plan.
fn room_after<'a>(
    alloc: Global,
    document: DocumentRoot<'a, '_>,
    assignment: &'a Assignment,
    room: usize,
) -> Result<Option<usize>, ExprError>
    requires { HasScalars (node_of document.root) }
    ensures { IfErr result (λ e. e ≡ failure.Memory) }
{
    match rest_after(alloc, document, assignment, room) {
        Ok(rest) => Ok(rest),
        Err(ExprError::Fault(_)) => Ok(Some(room)),
        Err(ExprError::Memory) => Err(ExprError::Memory),
    }
}

/// Whether the operations of an assignment by `|=` in documents take more than there is room for.
pub(crate) fn are_many(
    alloc: Global,
    assignment: &Assignment,
    documents: &Documents<'_>,
    room: usize,
) -> Result<bool, ExprError>
    ensures { IfErr result (λ e. e ≡ failure.Memory) }
{
    let mut rest = room;
    'documents: for doc in 0..documents.count() {
        let root = Node::root(documents, doc);
        let document = DocumentRoot {
            documents,
            doc,
            root,
        };
        match room_after(alloc, document, assignment, rest)? {
            Some(room) => rest = room,
            None => return Ok(true),
        }
    }
    Ok(false)
}
