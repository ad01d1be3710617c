//! Small values that are refused where large ones are.
ghost use Rattle.std.specs.Prelude.{◌≡◌, [], false, IfOk, IfSome, min, None, suc, map};
ghost use Rattle.yq_core.{specs.Inline.depth_limit, specs.Keys.depth, specs.Values.value_node, specs.Tree.{child, list, none, plain_label}};
ghost use Rattle.yq_planner.{specs.Substitutes.IsSubstitute, specs.ChangeAnswers.{keyless_map, ReplacesScalar}};
ghost use Rattle.yq_semantics.specs.Changes as spec;

use crate::updating::limits::{holds_long_key, is_deeper, is_long_key};
use std::alloc::{AllocError, Global};
use yq_core::{DEPTH_LIMIT, Kind, Scalar, Value};

/// How many collections are nested in a value: at most one more than may be.
pub(crate) fn depth_of(value: &Value) -> usize
    ensures { result ≡ min (suc depth_limit) (depth (value_node value.now)) }
{
    let mut depth = 0;
    'depths: while depth <= DEPTH_LIMIT {
        if !is_deeper(value, depth) {
            return depth;
        }
        depth += 1;
    }
    depth
}

/// A list of one item.
pub(crate) fn in_list(alloc: Global, item: Value) -> Result<Value, AllocError>
    ensures { IfOk result (λ v. value_node v ≡
        list None (child plain_label (value_node item) none)) }
{
    let mut items = Vec::with_capacity(alloc, 1)?;
    items.push(item)?;
    Ok(Value::List(items))
}

/// A mapping of one entry, whose key is the empty text, which isn't too long.
fn in_map(alloc: Global, value: Value) -> Result<Option<Value>, AllocError>
    ensures map { IfOk result (λ o. IfSome o (λ v. value_node v ≡ keyless_map value)) }
    ensures short { IfOk result (λ o. IfSome o (λ _. spec.is_long_key [] ≡ false)) }
{
    let key = String::new(alloc);
    if is_long_key(alloc, key.as_str())? {
        return Ok(None);
    }
    let mut entries = Vec::with_capacity(alloc, 1)?;
    entries.push((key, value))?;
    Ok(Some(Value::Map(entries)))
}

/// An empty text in so many lists.
pub(crate) fn nested_lists(alloc: Global, count: usize) -> Result<Value, AllocError>
    ensures depth { IfOk result (λ v. depth (value_node v) ≡ count) }
    ensures short { IfOk result (λ v. spec.has_long_key (value_node v) ≡ false) }
{
    let mut value = Value::Scalar(Scalar::string(String::new(alloc)));
    let mut done = 0;
    'lists: while done < count {
        value = in_list(alloc, value)?;
        done += 1;
    }
    Ok(value)
}

/// An empty text for any other one.
fn for_scalar(alloc: Global, scalar: &Scalar) -> Option<Value>
    ensures { IfSome result (λ w. ReplacesScalar scalar.now w) }
{
    if scalar.kind() != Kind::Text {
        return None;
    }
    Some(Value::Scalar(Scalar::string(String::new(alloc))))
}

/// A small value that is refused where a value is, if there is a smaller one: not where it has too long a
/// key, or is empty.
pub fn substitute(alloc: Global, value: &Value) -> Result<Option<Value>, AllocError>
    ensures { IfOk result (λ o. IfSome o (λ w. IsSubstitute (value_node value.now) (value_node w))) }
{
    if holds_long_key(alloc, value)? {
        return Ok(None);
    }
    let inside = nested_lists(alloc, depth_of(value).saturating_sub(1))?;
    match value {
        Value::Scalar(scalar) => Ok(for_scalar(alloc, scalar)),
        Value::List(items) => {
            if items.is_empty() {
                return Ok(None);
            }
            Ok(Some(in_list(alloc, inside)?))
        }
        Value::Map(entries) => {
            if entries.is_empty() {
                return Ok(None);
            }
            in_map(alloc, inside)
        }
    }
}
