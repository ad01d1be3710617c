//! How much memory the values of an update take, which are made for each of its places.
ghost use Rattle.std.specs.Prelude.{◌≡◌, IfErr, IfSome};
ghost use Rattle.yq_nodes.specs.Nodes.{node_of};
ghost use Rattle.yq_semantics.{specs.View.update_of, specs.Judgement.ExprError};
ghost use Rattle.yq_eval.specs.TreeScalars.{HasScalars};
ghost use Rattle.yq_expr.specs.Parts.{IsInOrder};
ghost use Rattle.yq_failure.specs.declared.failure.Failure.TheVariants as failure;

use crate::plans::document::DocumentRoot;
use crate::sizes::oversized::is_oversized;
use crate::terms::right_value::right_value;
use std::alloc::{AllocError, Global};
use yq_core::Value;
use yq_eval::FoundPlace;
use yq_semantics::{Assignment, ExprError, Operator, Term, Update};

/// How many bytes a scalar takes without its text, a key without its text, and a collection without what is
/// in it.
pub(crate) const SCALAR_WEIGHT: usize = 88;

const KEY_WEIGHT: usize = 40;

const COLLECTION_WEIGHT: usize = 64;

/// How many bytes an item or entry takes that is added, without its value.
pub(crate) const ADDITION_WEIGHT: usize = 384;

/// How many bytes the values of an update may take at once, more or less.
pub(crate) const VALUES_LIMIT: usize = 1 << 28;

/// How many bytes the value takes that an assignment puts at a place: as many at each, or those of what terms
/// find from there.
#[derive(Clone, Copy)]
pub(crate) enum ValueWeight<'a> {
    Alike(usize),
    Found(&'a [Term]),
}

/// How many bytes a value takes, more or less.
#[cycle(weight)]
pub(crate) fn weight(value: &Value) -> usize {
    match value {
        Value::Scalar(scalar) => scalar.text().len().saturating_add(SCALAR_WEIGHT),
        Value::List(items) => items_weight(items),
        Value::Map(entries) => entries_weight(entries),
    }
}

/// The same of items.
#[cycle(weight)]
fn items_weight(items: &Vec<Value>) -> usize {
    let mut sum = COLLECTION_WEIGHT;
    'each: for item in items {
        sum = sum.saturating_add(weight(item));
    }
    sum
}

/// The same of entries.
#[cycle(weight)]
fn entries_weight(entries: &Vec<(String, Value)>) -> usize {
    let mut sum = COLLECTION_WEIGHT;
    'each: for entry in entries {
        sum = sum.saturating_add(entry.0.len().saturating_add(KEY_WEIGHT));
        sum = sum.saturating_add(weight(&entry.1));
    }
    sum
}

/// How many bytes operations take that add a value, without that value.
fn additions_weight(value: &Value) -> usize {
    let count = match value {
        Value::Scalar(_) => 1,
        Value::List(items) => items.len(),
        Value::Map(entries) => entries.len(),
    };
    count.saturating_mul(ADDITION_WEIGHT)
}

/// An update that is an assignment.
pub(crate) fn assignment(update: &Update) -> Option<&Assignment>
    ensures order { IfSome result (λ _. IsInOrder (update_of update.now)) }
    ensures is { IfSome result (λ a. update.now ≡ Update.Assign a.now) }
{
    match update {
        Update::Assign(assignment) => Some(assignment),
        Update::Delete(_) | Update::Comment(_) => None,
    }
}

/// The right side of an assignment by one value for all places of a document.
fn shared(update: &Update) -> Option<&[Term]> {
    let assignment = assignment(update)?;
    match assignment.operator {
        Operator::Set | Operator::Add => Some(&assignment.right),
        Operator::Modify => None,
    }
}

/// The right side of an assignment whose value is another one at each place.
pub(crate) fn modified(update: &Update) -> Option<&[Term]> {
    let assignment = assignment(update)?;
    match assignment.operator {
        Operator::Modify => Some(&assignment.right),
        Operator::Set | Operator::Add => None,
    }
}

/// Whether the value of an assignment is added.
fn adds(update: &Update) -> bool {
    let Update::Assign(assignment) = update else {
        return false;
    };
    assignment.operator == Operator::Add
}

/// How many bytes the value takes that an update has for each place of a document: as many as a number may say,
/// where no text can hold it.
fn value_weight<'a>(
    alloc: Global,
    update: &'a Update,
    document: &DocumentRoot<'a, '_>,
) -> Result<usize, ExprError>
    requires { HasScalars (node_of document.now.root) }
{
    let Some(right) = shared(update) else {
        return Ok(0);
    };
    let from = FoundPlace::of_root(&document.root);
    if is_oversized(alloc, document.doc, right, &from, document.text_length())? {
        return Ok(usize::MAX);
    }
    let value = right_value(alloc, document.doc, right, &from)?;
    if adds(update) {
        return Ok(weight(&value).saturating_add(additions_weight(&value)));
    }
    Ok(weight(&value))
}

/// The same, where a refusal is left to the plan.
pub(crate) fn weight_at<'a>(
    alloc: Global,
    update: &'a Update,
    document: &DocumentRoot<'a, '_>,
) -> Result<usize, ExprError>
    requires { HasScalars (node_of document.now.root) }
    ensures { IfErr result (λ e. e ≡ failure.Memory) }
{
    match value_weight(alloc, update, document) {
        Ok(weight) => Ok(weight),
        Err(ExprError::Fault(_)) => Ok(0),
        Err(ExprError::Memory) => Err(ExprError::Memory),
    }
}

/// How many bytes the value of an update takes that is made for one place of a document, as far as that matters:
/// as many as a number may say, where no text can hold it.
pub(crate) fn sole_weight<'a>(
    alloc: Global,
    update: &'a Update,
    document: &DocumentRoot<'a, '_>,
) -> Result<usize, AllocError>
    requires { HasScalars (node_of document.now.root) }
{
    let Some(right) = shared(update) else {
        return Ok(0);
    };
    let from = FoundPlace::of_root(&document.root);
    if is_oversized(alloc, document.doc, right, &from, document.text_length())? {
        return Ok(usize::MAX);
    }
    Ok(0)
}
