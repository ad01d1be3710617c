//! Values that are added several times.
ghost use Rattle.std.specs.Prelude.{◌≡◌, ◌<◌, IfOk};
ghost use Rattle.yq_core.specs.Values.{value_node};
ghost use Rattle.yq_planner.specs.Repeated.{GivesTexts, JudgesTimes, KnowsInts, KnowsScalars, KnowsSum, AppendsTimes, number_times};

use crate::updating::copied::copied;
use crate::updating::holding::holds_already;
use crate::updating::sum::{int, sum};
use std::alloc::{AllocError, Global};
use yq_core::{Kind, Scalar, Value};
use yq_scalar_reader::int_value;
use yq_semantics::ExprError;

/// A number after another one was added so many times, if each sum is one of 64 bits.
fn number_times(first: i64, added: i64, times: usize) -> Option<i64>
    ensures { result ≡ number_times times added first }
{
    let mut total = first;
    let mut left = times;
    'sums: while left > 0 {
        match total.checked_add(added) {
            Some(sum) => total = sum,
            None => return None,
        }
        left -= 1;
    }
    Some(total)
}

/// An int after another one was added so many times, once at least, if each sum has 64 bits.
fn int_times(
    alloc: Global,
    one: &str,
    other: &str,
    times: usize,
) -> Result<Option<Value>, AllocError>
    requires { 0 < times }
    ensures { KnowsInts result times other.now one.now }
{
    let Some(first) = int_value(one) else {
        return Ok(None);
    };
    let Some(added) = int_value(other) else {
        return Ok(None);
    };
    let Some(total) = number_times(first, added, times) else {
        return Ok(None);
    };
    let sum = int(alloc, total)?;
    Ok(Some(sum))
}

/// Puts a text after another one so many times.
fn push_times(text: &mut String, added: &str, times: usize) -> Result<(), AllocError>
    ensures { AppendsTimes result times added.now text.old text.new }
{
    let mut left = times;
    'texts: while left > 0 {
        text.push_str(added)?;
        left -= 1;
    }
    Ok(())
}

/// A text after another one was added so many times.
fn text_times(alloc: Global, one: &str, other: &str, times: usize) -> Result<Value, AllocError>
    ensures { IfOk result (λ v. GivesTexts times other.now one.now v) }
{
    let room = other.len().saturating_mul(times);
    let mut text = String::with_capacity(alloc, room.saturating_add(one.len()))?;
    text.push_str(one)?;
    push_times(&mut text, other, times)?;
    Ok(Value::Scalar(Scalar::string(text)))
}

/// An int or a text after another one was added so many times, once at least, if that is known without each sum.
fn scalar_times(
    alloc: Global,
    one: &Scalar,
    other: &Scalar,
    times: usize,
) -> Result<Option<Value>, AllocError>
    requires { 0 < times }
    ensures { KnowsScalars result times other.now one.now }
{
    match (one.kind(), other.kind()) {
        (Kind::Int, Kind::Int) => int_times(alloc, one.text(), other.text(), times),
        (Kind::Text, Kind::Text) => {
            let sum = text_times(alloc, one.text(), other.text(), times)?;
            Ok(Some(sum))
        }
        _ => Ok(None),
    }
}

/// The same of values.
fn known_times(
    alloc: Global,
    total: &Value,
    value: &Value,
    times: usize,
) -> Result<Option<Value>, AllocError>
    ensures { KnowsSum result times value.now total.now }
{
    if times == 0 {
        return Ok(None);
    }
    match (total, value) {
        (Value::Scalar(one), Value::Scalar(other)) => scalar_times(alloc, one, other, times),
        _ => Ok(None),
    }
}

/// How many items a list gets from a value.
fn item_count(value: &Value) -> usize {
    match value {
        Value::List(items) => items.len(),
        Value::Scalar(_) | Value::Map(_) => 1,
    }
}

/// A list with room for what it gets from a value so many times, where there is memory; other values as they are.
fn with_room(total: Value, value: &Value, times: usize) -> Value
    ensures { value_node result ≡ value_node total }
{
    match total {
        Value::List(items) => {
            let mut items = items;
            let room = item_count(value).saturating_mul(times);
            if items.reserve_exact(room).is_err() {
                return Value::List(items);
            }
            Value::List(items)
        }
        Value::Scalar(scalar) => Value::Scalar(scalar),
        Value::Map(entries) => Value::Map(entries),
    }
}

/// A value after another one was added so many times, or until that changes nothing.
fn value_times(alloc: Global, total: Value, value: &Value, times: usize) -> Result<Value, ExprError>
    ensures { JudgesTimes result times value.now total }
{
    let mut total = with_room(total, value, times);
    let mut left = times;
    'times: while left > 0 {
        if left < times && holds_already(alloc, &total, value)? {
            return Ok(total);
        }
        total = sum(alloc, total, copied(alloc, value)?)?;
        left -= 1;
    }
    Ok(total)
}

/// A value after another one was added so many times.
pub fn sum_times(
    alloc: Global,
    total: Value,
    value: Value,
    times: usize,
) -> Result<Value, ExprError>
    ensures { JudgesTimes result times value total }
{
    if times == 1 {
        return sum(alloc, total, value);
    }
    match known_times(alloc, &total, &value, times)? {
        Some(sum) => Ok(sum),
        None => value_times(alloc, total, &value, times),
    }
}
