//! Sums of values (yq manual, `+`).
ghost use Rattle.std.{specs.Fmt.signed_decimal, specs.Prelude.{◌≡◌, ◌++◌, IfOk, None, OnOk, map}};
ghost use Rattle.yq_core.{specs.Values.{field_of, items_of, value_node}, specs.Tree.scalar};
ghost use Rattle.yq_core.specs.declared.kind.Kind.TheVariants.{Int, Text};
ghost use Rattle.yq_planner.{specs.EntryNumbers.AreNumbered, specs.ChangeAnswers.{PutsItems, sum_of_texts, PutsEntry, PutsEntries}};
ghost use Rattle.yq_semantics.specs.Judgement.{Judges};
ghost use Rattle.yq_core.specs.SchemaReading as numbers;
ghost use Rattle.yq_semantics.specs.RightValues as spec;

use crate::updating::key_numbers::{KeyNumbers, keep_number, number_of, numbers_of};
use itoa::Buffer;
use std::alloc::{AllocError, Global};
use yq_core::{Kind, Scalar, Value};
use yq_scalar_reader::int_value;
use yq_semantics::{ExprError, Refusal};

/// The int of a number.
pub(crate) fn int(alloc: Global, number: i64) -> Result<Value, AllocError>
    ensures { IfOk result (λ v. value_node v ≡ scalar None Int (signed_decimal number)) }
{
    let mut digits = Buffer::new();
    let scalar = Scalar::new(alloc, Kind::Int, digits.format(number))?;
    Ok(Value::Scalar(scalar))
}

/// The sum of two ints.
fn int_sum(alloc: Global, one: &str, other: &str) -> Result<Value, ExprError>
    ensures { Judges value_node result (sum_of_texts one.now other.now) }
{
    let (Some(m), Some(n)) = (int_value(one), int_value(other)) else {
        return Err(Refusal::IntegerRange.error());
    };
    match m.checked_add(n) {
        Some(total) => Ok(int(alloc, total)?),
        None => Err(Refusal::IntegerRange.error()),
    }
}

/// One string after another.
fn text_sum(alloc: Global, one: &str, other: &str) -> Result<Value, AllocError>
    ensures { IfOk result (λ v. value_node v ≡ scalar None Text (one.now ++ other.now)) }
{
    let mut text = String::from_str(alloc, one)?;
    text.push_str(other)?;
    Ok(Value::Scalar(Scalar::string(text)))
}

/// The sum of two scalars, neither of which is null.
pub fn scalar_sum(alloc: Global, kind: Kind, text: &str, other: &Scalar) -> Result<Value, ExprError>
    ensures { Judges value_node result
        (spec.scalar_sum kind text.now other.now.kind other.now.text) }
{
    match (kind, other.kind()) {
        (Kind::Int, Kind::Int) => int_sum(alloc, text, other.text()),
        (Kind::Text, Kind::Text) => Ok(text_sum(alloc, text, other.text())?),
        (Kind::Int, Kind::Float) | (Kind::Float, Kind::Int) | (Kind::Float, Kind::Float) => {
            Err(Refusal::FloatArithmetic.error())
        }
        _ => Err(Refusal::KindMismatch.error()),
    }
}

/// Whether a value is null.
pub fn is_null(value: &Value) -> bool
    ensures { result ≡ spec.is_null (value_node value.now) }
{
    match value {
        Value::Scalar(scalar) => scalar.kind() == Kind::Null,
        Value::List(_) | Value::Map(_) => false,
    }
}

/// Puts what a list gets from a value after its items: the items of a list,
/// or the value as one item.
fn push_items(items: &mut Vec<Value>, value: Value) -> Result<(), AllocError>
    ensures { PutsItems result items.old items.new (spec.as_items (value_node value)) }
{
    match value {
        Value::List(others) => push_all(items, others),
        Value::Scalar(scalar) => Ok(items.push(Value::Scalar(scalar))?),
        Value::Map(entries) => Ok(items.push(Value::Map(entries))?),
    }
}

/// Puts items after others.
fn push_all(items: &mut Vec<Value>, others: Vec<Value>) -> Result<(), AllocError>
    ensures { PutsItems result items.old items.new (items_of others.items) }
{
    'each: for other in others {
        items.push(other)?;
    }
    Ok(())
}

/// Puts a value in the place of that of its key, or after the entries, which
/// have these numbers.
fn put_entry(
    alloc: Global,
    entries: &mut Vec<(String, Value)>,
    numbers: &mut KeyNumbers,
    key: String,
    value: Value,
) -> Result<(), AllocError>
    requires { AreNumbered (map field_of entries.old.items) numbers.old }
    ensures entries { PutsEntry result entries.old entries.new key value }
    ensures numbers { OnOk result (AreNumbered (map field_of entries.new.items) numbers.new) }
{
    match number_of(numbers, key.as_str()) {
        Some(number) => {
            entries[number].1 = value;
            Ok(())
        }
        None => {
            keep_number(alloc, numbers, key.as_str(), entries.as_slice().len())?;
            entries.push((key, value))?;
            Ok(())
        }
    }
}

/// Puts entries among others, one after the other.
fn put_entries(
    alloc: Global,
    entries: &mut Vec<(String, Value)>,
    others: Vec<(String, Value)>,
) -> Result<(), AllocError>
    ensures { PutsEntries result entries.old entries.new others }
{
    let mut numbers = numbers_of(alloc, entries)?;
    'each: for (key, value) in others {
        put_entry(alloc, entries, &mut numbers, key, value)?;
    }
    Ok(())
}

/// The sum of two values, neither of which is null.
fn value_sum(alloc: Global, one: Value, other: Value) -> Result<Value, ExprError>
    ensures { Judges value_node result (spec.value_sum (value_node one) (value_node other)) }
{
    match (one, other) {
        (Value::Scalar(scalar), Value::Scalar(added)) => {
            scalar_sum(alloc, scalar.kind(), scalar.text(), &added)
        }
        (Value::List(items), added) => {
            let mut all = items;
            push_items(&mut all, added)?;
            Ok(Value::List(all))
        }
        (Value::Map(entries), Value::Map(added)) => {
            let mut all = entries;
            put_entries(alloc, &mut all, added)?;
            Ok(Value::Map(all))
        }
        _ => Err(Refusal::KindMismatch.error()),
    }
}

/// The sum of two values.
pub fn sum(alloc: Global, one: Value, other: Value) -> Result<Value, ExprError>
    ensures { Judges value_node result (spec.sum (value_node one) (value_node other)) }
{
    if is_null(&one) {
        return Ok(other);
    }
    if is_null(&other) {
        return Ok(one);
    }
    value_sum(alloc, one, other)
}
