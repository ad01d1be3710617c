//! What can't be written: values with too long a key, or nested too deep.
ghost use Rattle.std.specs.Prelude.{◌≡◌, IfOk, false, nat_lt, suc, true};
ghost use Rattle.yq_core.{specs.Values.{entries_of, items_of, value_node}, specs.Keys.{deepest, depth}};
ghost use Rattle.yq_flow_edits.specs.Valued.{AreValueTrees, IsValueTree};
ghost use Rattle.yq_semantics.specs.Changes as spec;

use std::alloc::{AllocError, Global};
use yq_core::characters::char_count;
use yq_core::{DEPTH_LIMIT, KEY_LIMIT, Place, Scalar, Value};
use yq_scalar::write_scalar;
use yq_scalar_reader::written_style;

/// Whether a key has too many characters as it is written in flow mappings.
#[tactic(auto, unfolding(yq_core::specs::NodesWritten::scalar_text))]
pub fn is_long_key(alloc: Global, key: &str) -> Result<bool, AllocError>
    ensures { IfOk result (λ b. b ≡ spec.is_long_key key.now) }
{
    let scalar = Scalar::string(String::from_str(alloc, key)?);
    let style = written_style(&scalar, Place::FlowKey);
    let written = write_scalar(alloc, &scalar, style, Place::FlowKey)?;
    Ok(char_count(&written) > KEY_LIMIT)
}

/// Whether a value has too long a key.
#[cycle(long)]
pub fn holds_long_key(alloc: Global, value: &Value) -> Result<bool, AllocError>
    ensures long { IfOk result (λ b. b ≡ spec.has_long_key (value_node value.now)) }
    // One without is known to be valid, since each of its scalars and keys was looked at.
    ensures valid { IfOk result (λ b. b ≡ false → IsValueTree (value_node value.now)) }
{
    match value {
        Value::Scalar(scalar) => {
            let _kind = scalar.kind();
            let _text = scalar.text();
            Ok(false)
        }
        Value::List(items) => some_holds_long_key(alloc, items),
        Value::Map(entries) => some_has_long_key(alloc, entries),
    }
}

/// Whether an item has too long a key.
#[cycle(long)]
fn some_holds_long_key(alloc: Global, items: &Vec<Value>) -> Result<bool, AllocError>
    ensures long { IfOk result (λ b. b ≡ spec.have_long_key (items_of items.now.items)) }
    ensures valid { IfOk result (λ b. b ≡ false → AreValueTrees false (items_of items.now.items)) }
{
    'each: for item in items {
        if holds_long_key(alloc, item)? {
            return Ok(true);
        }
    }
    Ok(false)
}

/// Whether a key is too long, or a key of a value.
#[cycle(long)]
fn some_has_long_key(alloc: Global, entries: &Vec<(String, Value)>) -> Result<bool, AllocError>
    ensures long { IfOk result (λ b. b ≡ spec.have_long_key (entries_of entries.now.items)) }
    ensures valid { IfOk result (λ b. b ≡ false → AreValueTrees true (entries_of entries.now.items)) }
{
    'each: for entry in entries {
        if is_long_key(alloc, entry.0.as_str())? {
            return Ok(true);
        }
        if holds_long_key(alloc, &entry.1)? {
            return Ok(true);
        }
    }
    Ok(false)
}

/// Whether more than so many collections are nested in a value.
#[cycle(deeper)]
pub(crate) fn is_deeper(value: &Value, limit: usize) -> bool
    ensures { result ≡ nat_lt limit (depth (value_node value.now)) }
{
    match value {
        Value::Scalar(_) => false,
        Value::List(items) => {
            if limit == 0 {
                return true;
            }
            some_item_is_deeper(items, limit - 1)
        }
        Value::Map(entries) => {
            if limit == 0 {
                return true;
            }
            some_value_is_deeper(entries, limit - 1)
        }
    }
}

/// The same of some item.
#[cycle(deeper)]
fn some_item_is_deeper(items: &Vec<Value>, limit: usize) -> bool
    ensures { result ≡ nat_lt limit (deepest (items_of items.now.items)) }
{
    'each: for item in items {
        if is_deeper(item, limit) {
            return true;
        }
    }
    false
}

/// The same of the value of some entry.
#[cycle(deeper)]
fn some_value_is_deeper(entries: &Vec<(String, Value)>, limit: usize) -> bool
    ensures { result ≡ nat_lt limit (deepest (entries_of entries.now.items)) }
{
    'each: for entry in entries {
        if is_deeper(&entry.1, limit) {
            return true;
        }
    }
    false
}

/// Whether so many collections, and those of a value in them, are too many.
pub(crate) fn is_deep(outer: usize, value: &Value) -> bool
    ensures { result ≡ spec.is_deep outer (value_node value.now) }
{
    outer > DEPTH_LIMIT || is_deeper(value, DEPTH_LIMIT - outer)
}

/// The same of a value in one collection more.
pub(crate) fn is_deep_inside(outer: usize, value: &Value) -> bool
    ensures { result ≡ spec.is_deep (suc outer) (value_node value.now) }
{
    outer >= DEPTH_LIMIT || is_deeper(value, DEPTH_LIMIT - 1 - outer)
}
