//! Sums that no text can hold: lists of more items than a text may have, and strings that are too long, known by their
//! sizes and never made.
ghost use Rattle.std.specs.Prelude.{◌≡◌, IfOk, true};
ghost use Rattle.yq_expr.specs.Oversized.{MakesFirst, MakesThere};
ghost use Rattle.yq_nodes.specs.Nodes.{node_of};
ghost use Rattle.yq_eval.{specs.PlaceView.{place_of, places_of}, specs.TreeScalars.{HasScalars, HaveScalars}};
ghost use Rattle.yq_expr.specs.Oversized as spec;

use crate::memory::weights::assignment;
use crate::plans::document::DocumentRoot;
use crate::sizes::sums::sum_size;
use std::alloc::{AllocError, Global};
use yq_core::Kind;
use yq_eval::FoundPlace;
use yq_nodes::{Node, NodeKind};
use yq_semantics::{Operator, Term, Update};

/// Whether the sum of terms is a list or a string that no text can hold, in a text of that length.
pub(crate) fn is_oversized<'a, 't>(
    alloc: Global,
    doc: usize,
    terms: &'a [Term],
    place: &FoundPlace<'a, 't>,
    length: usize,
) -> Result<bool, AllocError>
    requires { HasScalars (place_of place.now).node }
{
    match sum_size(alloc, doc, terms, place, length)? {
        Some(size) => Ok(size.is_too_large("")),
        None => Ok(false),
    }
}

/// The place from which the value of an assignment is found that a place gets.
fn value_start<'a, 't>(
    operator: Operator,
    root: &Node<'a, 't>,
    place: &FoundPlace<'a, 't>,
) -> FoundPlace<'a, 't>
    ensures { place_of result ≡ spec.value_start operator (node_of root.now) (place_of place.now) }
{
    match operator {
        Operator::Modify => *place,
        Operator::Set => FoundPlace::of_root(root),
        Operator::Add => FoundPlace::of_root(root),
    }
}

/// The text of a string; of another node an empty one.
#[tactic(auto, using(crate::proofs::SumLaws::is_string, crate::proofs::SumLaws::no_string))]
fn string_in<'a>(node: &Node<'a, '_>) -> &'a str
    ensures { result.now ≡ spec.string_in (node_of node.now) }
{
    let (kind, text) = node.kind_and_text();
    if kind == NodeKind::Scalar(Kind::Text) {
        text
    } else {
        ""
    }
}

/// The string to which an assignment adds a string at a place; an empty one, where it replaces what is there.
fn string_before<'a>(operator: Operator, place: &FoundPlace<'a, '_>) -> &'a str
    ensures { result.now ≡ spec.string_before operator (place_of place.now) }
{
    match operator {
        Operator::Set | Operator::Modify => "",
        Operator::Add => match place.found() {
            Some(node) => string_in(node),
            None => "",
        },
    }
}

/// Whether an update puts at a place, or adds, what no text can hold.
#[tactic(auto, using(crate::proofs::OversizedLaws::missing_keys))]
fn is_oversized_at<'a, 't>(
    alloc: Global,
    update: &'a Update,
    document: &DocumentRoot<'a, 't>,
    place: &FoundPlace<'a, 't>,
) -> Result<bool, AllocError>
    requires root { HasScalars (node_of document.now.root) }
    requires place { HasScalars (place_of place.now).node }
    ensures { IfOk result (λ b. b ≡ true → MakesThere document.now update.now place.now) }
{
    let Some(assignment) = assignment(update) else {
        return Ok(false);
    };
    let from = value_start(assignment.operator, &document.root, place);
    let right: &[Term] = &assignment.right;
    match sum_size(alloc, document.doc, right, &from, document.text_length())? {
        Some(size) => Ok(size.is_too_large(string_before(assignment.operator, place))),
        None => Ok(false),
    }
}

/// The same at the first of places, if there is one.
pub(crate) fn begins_oversized<'a, 't>(
    alloc: Global,
    update: &'a Update,
    document: &DocumentRoot<'a, 't>,
    places: &[FoundPlace<'a, 't>],
) -> Result<bool, AllocError>
    requires root { HasScalars (node_of document.now.root) }
    requires places { HaveScalars (places_of places.now) }
    ensures { IfOk result (λ b. b ≡ true →
        MakesFirst document.now update.now places.now) }
{
    match places {
        [] => Ok(false),
        [first, ..] => is_oversized_at(alloc, update, document, first),
    }
}
