//! What `select` asks of a place.
ghost use Rattle.std.specs.Prelude.{◌≡◌, IfSome};
ghost use Rattle.yq_semantics.specs.Judgement.{gives};
ghost use Rattle.yq_eval.{specs.PlaceView.{node_or_null, place_of, places_of}, specs.PlaceAnswers.JudgesWhether};
ghost use Rattle.yq_eval.specs.ConditionAnswers.{are_same_ints, is_that_scalar, first_is_that, equals_scalar, value_equals, holds_at};
ghost use Rattle.yq_eval.specs.ConditionAnswers.{unless_alias};
ghost use Rattle.yq_semantics.specs.Conditions as spec;

use crate::matching::along::value_along;
use crate::matching::place::FoundPlace;
use crate::matching::steps::at_place;
use crate::matching::traverse::traverse;
use bumpalo::Bump;
use std::alloc::Global;
use yq_core::{Kind, Scalar, is_true_word};
use yq_nodes::{Node, NodeKind};
use yq_scalar_reader::int_value;
use yq_semantics::{Comparison, Condition, ExprError, Operand, PathStep, Refusal};

/// Whether two ints are the same: by their numbers, where both have one in 64
/// bits, and else by their texts.
fn same_int(one: &str, other: &str) -> bool
    ensures { result ≡ are_same_ints one.now other.now }
{
    match (int_value(one), int_value(other)) {
        (Some(m), Some(n)) => m == n,
        (Some(_), None) => one == other,
        (None, _) => one == other,
    }
}

/// Whether two bools are the same.
fn same_bool(one: bool, other: bool) -> bool
    ensures { result ≡ spec.same_bool one other }
{
    if one { other } else { !other }
}

/// Whether a kind and a text are those of a scalar, or of one with the same
/// value.
fn same_scalar(kind: Kind, text: &str, scalar: &Scalar) -> bool
    ensures { result ≡ spec.same_scalar kind text.now scalar.now.kind scalar.now.text }
{
    match (kind, scalar.kind()) {
        (Kind::Null, Kind::Null) => true,
        (Kind::Bool, Kind::Bool) => same_bool(is_true_word(text), is_true_word(scalar.text())),
        (Kind::Int, Kind::Int) => same_int(text, scalar.text()),
        (Kind::Float, Kind::Float) => text == scalar.text(),
        (Kind::Text, Kind::Text) => text == scalar.text(),
        _ => false,
    }
}

/// Whether a node is that scalar, or null where there is no node; nothing, where it is an alias.
fn node_is(node: Option<&Node<'_, '_>>, scalar: &Scalar) -> Option<bool>
    ensures { is_that_scalar scalar.now (node_or_null node.entry) ≡ unless_alias result }
{
    let Some(node) = node else {
        return Some(same_scalar(Kind::Null, "null", scalar));
    };
    let (kind, text) = node.kind_and_text();
    match kind {
        NodeKind::Alias => None,
        NodeKind::Scalar(kind) => Some(same_scalar(kind, text, scalar)),
        NodeKind::List | NodeKind::Map => Some(false),
    }
}

/// What is known at a place, or the refusal of the alias there.
fn unless_alias(
    alloc: Global,
    place: &FoundPlace<'_, '_>,
    known: Option<bool>,
) -> Result<bool, ExprError>
    ensures { JudgesWhether result (unless_alias known) }
{
    match known {
        Some(known) => Ok(known),
        None => at_place(alloc, place, Err(Refusal::ThroughAlias.error())),
    }
}

/// Whether the value at a place is that scalar: null where a step is missing.
fn place_is(alloc: Global, place: &FoundPlace<'_, '_>, scalar: &Scalar) -> Result<bool, ExprError>
    ensures { JudgesWhether result (is_that_scalar scalar.now (spec.value_of (place_of place.now))) }
{
    unless_alias(alloc, place, node_is(place.found(), scalar))
}

/// Whether the value at the first of places is that scalar.
fn first_is(
    alloc: Global,
    places: &[FoundPlace<'_, '_>],
    scalar: &Scalar,
) -> Result<bool, ExprError>
    ensures { JudgesWhether result (first_is_that scalar.now (places_of places.now)) }
{
    match places {
        [] => Ok(false),
        [first, ..] => place_is(alloc, first, scalar),
    }
}

/// Whether the value to which steps lead from a place is that scalar, by the places on the way.
fn found_is<'a, 't>(
    alloc: Global,
    bump: &'a Bump,
    steps: &'a [PathStep],
    scalar: &Scalar,
    place: FoundPlace<'a, 't>,
) -> Result<bool, ExprError>
    ensures { JudgesWhether result (value_equals steps.now scalar.now (place_of place.entry)) }
{
    let places = traverse(alloc, bump, steps, place.alone(alloc)?)?;
    first_is(alloc, &places, scalar)
}

/// The same without places, where no step leads to all items or values and nothing refuses.
fn along_is<'a, 't>(
    steps: &'a [PathStep],
    scalar: &Scalar,
    place: &FoundPlace<'a, 't>,
) -> Option<bool>
    ensures { IfSome result (λ b. value_equals steps.now scalar.now (place_of place.now) ≡ gives b) }
{
    let Some(value) = value_along(steps, place) else {
        return None;
    };
    match value {
        Some(node) => node_is(Some(&node), scalar),
        None => node_is(None, scalar),
    }
}

/// Whether the value to which steps lead from a place is that scalar.
fn value_is<'a, 't>(
    alloc: Global,
    steps: &'a [PathStep],
    scalar: &Scalar,
    place: &FoundPlace<'a, 't>,
) -> Result<bool, ExprError>
    ensures { JudgesWhether result (value_equals steps.now scalar.now (place_of place.now)) }
{
    if let [] = steps {
        return place_is(alloc, place, scalar);
    }
    if let Some(same) = along_is(steps, scalar, place) {
        return Ok(same);
    }
    let bump = Bump::new(alloc);
    found_is(alloc, &bump, steps, scalar, *place)
}

/// Whether what is compared is the scalar of a comparison, at a place in document `doc`.
fn operand_is<'a, 't>(
    alloc: Global,
    doc: usize,
    comparison: &'a Comparison,
    place: &FoundPlace<'a, 't>,
) -> Result<bool, ExprError>
    ensures { JudgesWhether result (equals_scalar doc comparison.now (place_of place.now)) }
{
    let scalar = &comparison.scalar;
    match &comparison.operand {
        Operand::Path(steps) => value_is(alloc, steps, scalar, place),
        Operand::DocumentIndex => {
            let number = doc.to_string(alloc)?;
            Ok(same_scalar(Kind::Int, number.as_str(), scalar))
        }
    }
}

/// Whether a node is a mapping with that key; nothing, where it is an alias.
fn node_has(node: Option<&Node<'_, '_>>, key: &str) -> Option<bool>
    ensures { spec.has_key key.now (node_or_null node.entry) ≡ unless_alias result }
{
    let Some(node) = node else {
        return Some(false);
    };
    match node.kind() {
        NodeKind::Alias => None,
        NodeKind::Scalar(_) | NodeKind::List => Some(false),
        NodeKind::Map => Some(node.entry(key).is_some()),
    }
}

/// Whether the value at a place is a mapping with that key.
fn place_has(alloc: Global, place: &FoundPlace<'_, '_>, key: &str) -> Result<bool, ExprError>
    ensures { JudgesWhether result (spec.has_key key.now (spec.value_of (place_of place.now))) }
{
    unless_alias(alloc, place, node_has(place.found(), key))
}

/// Whether a condition holds at a place in document `doc`.
pub(crate) fn holds<'a, 't>(
    alloc: Global,
    doc: usize,
    condition: &'a Condition,
    place: &FoundPlace<'a, 't>,
) -> Result<bool, ExprError>
    ensures { JudgesWhether result (holds_at doc condition.now (place_of place.now)) }
{
    match condition {
        Condition::Compare(comparison) => {
            let same = operand_is(alloc, doc, comparison, place)?;
            Ok(same_bool(comparison.equal, same))
        }
        Condition::Has(key) => place_has(alloc, place, key.as_str()),
    }
}
