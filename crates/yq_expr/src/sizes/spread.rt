//! Values that are added, or put, at so many places that no text can hold all their items and entries.
ghost use Rattle.std.specs.Prelude.{◌≡◌, ◌<◌, ◌*◌, IfOk, false, map, true};
ghost use Rattle.yq_core.specs.Values.{value_node};
ghost use Rattle.yq_nodes.specs.Nodes.{node_of};
ghost use Rattle.yq_eval.{specs.PlaceView.places_of, specs.TreeScalars.{HasScalars, HaveScalars}};
ghost use Rattle.yq_semantics.specs.View.{term_of};
ghost use Rattle.yq_expr.specs.Oversized.{BeginsLarge, GiveItems, ModifiesTooMuch, SpreadsTooMany, is_scalar_node};
ghost use Rattle.yq_expr.specs.SumSizes.{IsSpread, items_limit};

use crate::memory::weights::assignment;
use crate::plans::document::DocumentRoot;
use crate::sizes::item_counts::count_in;
use crate::sizes::oversized::begins_oversized;
use crate::sizes::sum_sizes::ITEMS_LIMIT;
use crate::sizes::sums::sum_size;
use crate::terms::right_value::right_value;
use std::alloc::{AllocError, Global};
use yq_core::Value;
use yq_eval::FoundPlace;
use yq_flow_edits::value_holds;
use yq_semantics::{ExprError, Operator, Term, Update};
use yq_text::TEXT_LIMIT;

/// Whether no text can hold so many items and entries at so many places.
fn are_too_many(items: usize, count: usize) -> bool
    ensures { result ≡ true → items_limit < count * items }
{
    items.saturating_mul(count) > ITEMS_LIMIT
}

/// Whether all of a value is in what an assignment gives a place: what is left of a scalar that is added isn't known.
fn comes_whole(operator: Operator, value: &Value) -> bool
    ensures { result ≡ true → operator ≡ Operator.Add → is_scalar_node (value_node value.now) ≡ false }
{
    match (operator, value) {
        (Operator::Add, Value::Scalar(_)) => false,
        _ => true,
    }
}

/// Whether a value is put, or added, at so many places that no text can hold all items and entries: those of a value
/// that is added to a mapping or list are in that afterwards.
fn is_spread(operator: Operator, value: &Value, count: usize) -> bool
    ensures spread { result ≡ true → IsSpread (value_node value.now) count }
    ensures whole { result ≡ true → operator ≡ Operator.Add → is_scalar_node (value_node value.now) ≡ false }
{
    value_holds(value);
    comes_whole(operator, value) && are_too_many(count_in(value), count)
}

/// The same of the value of an assignment at so many places of a document.
fn spreads_too_many<'a>(
    alloc: Global,
    update: &'a Update,
    document: &DocumentRoot<'a, '_>,
    count: usize,
) -> Result<bool, AllocError>
    requires { HasScalars (node_of document.now.root) }
    ensures { IfOk result (λ b. b ≡ true → SpreadsTooMany document.now update.now count) }
{
    let Some(assignment) = assignment(update) else {
        return Ok(false);
    };
    if let Operator::Modify = assignment.operator {
        return Ok(false);
    }
    let right: &[Term] = &assignment.right;
    let most = document.text_length().saturating_mul(right.len());
    if count < 2 || most.saturating_mul(count) <= TEXT_LIMIT {
        return Ok(false);
    }
    let from = FoundPlace::of_root(&document.root);
    match right_value(alloc, document.doc, right, &from) {
        Ok(value) => Ok(is_spread(assignment.operator, &value, count)),
        Err(ExprError::Fault(_)) => Ok(false),
        Err(ExprError::Memory) => Err(AllocError),
    }
}

/// How many items and entries are in the sums of terms, each from one of the first of places: so many at least, and no
/// more are counted where they are more than a text may have, or a sum is no list or string of
/// known size.
fn count_sums<'a, 't>(
    alloc: Global,
    document: &DocumentRoot<'a, 't>,
    right: &'a [Term],
    places: &[FoundPlace<'a, 't>],
) -> Result<usize, AllocError>
    requires { HaveScalars (places_of places.now) }
    ensures { IfOk result (GiveItems document.now.doc (map term_of right.now) (places_of places.now)) }
{
    let length = document.text_length();
    let mut count = 0usize;
    'places: for place in places {
        if count > ITEMS_LIMIT {
            return Ok(count);
        }
        let Some(size) = sum_size(alloc, document.doc, right, place, length)? else {
            return Ok(count);
        };
        count = count.saturating_add(size.items());
    }
    Ok(count)
}

/// Whether the values of an assignment that are found from places are lists with more items and entries than a text
/// may have, those of the first places together.
fn modifies_too_much<'a, 't>(
    alloc: Global,
    update: &'a Update,
    document: &DocumentRoot<'a, 't>,
    places: &[FoundPlace<'a, 't>],
) -> Result<bool, AllocError>
    requires { HaveScalars (places_of places.now) }
    ensures { IfOk result (λ b. b ≡ true → ModifiesTooMuch document.now update.now places.now) }
{
    let Some(assignment) = assignment(update) else {
        return Ok(false);
    };
    match assignment.operator {
        Operator::Set | Operator::Add => Ok(false),
        Operator::Modify => {
            let right: &[Term] = &assignment.right;
            let count = count_sums(alloc, document, right, places)?;
            Ok(count > ITEMS_LIMIT)
        }
    }
}

/// Whether an update begins at places with what no text can hold.
pub(crate) fn begins_large<'a, 't>(
    alloc: Global,
    update: &'a Update,
    document: &DocumentRoot<'a, 't>,
    places: &[FoundPlace<'a, 't>],
) -> Result<bool, AllocError>
    requires root { HasScalars (node_of document.now.root) }
    requires places { HaveScalars (places_of places.now) }
    ensures { IfOk result (λ b. b ≡ true → BeginsLarge document.now update.now places.now) }
{
    if begins_oversized(alloc, update, document, places)? {
        return Ok(true);
    }
    if modifies_too_much(alloc, update, document, places)? {
        return Ok(true);
    }
    spreads_too_many(alloc, update, document, places.len())
}
