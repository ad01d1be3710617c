//! Scalars and literals.
ghost use Rattle.std.specs.Prelude.{◌≡◌, map, option_map, IfOk};
ghost use Rattle.yq_expr_parser.{specs.ReadAnswers.{ReadsForm, Shortens, IsShorter, with_tokens}, specs.Lexing.tokens};
ghost use Rattle.yq_expr_parser.specs.FormAnswers.{ReadsOf, ReadsAll, literal_items, literal_fields, field_keys};
ghost use Rattle.yq_core.{specs.Values.{value_node, field_of}, specs.Keys.are_distinct};
ghost use Rattle.yq_expr_parser.specs.Parse as spec;

use crate::front::{after, closed, expect, misread, number, string};
use std::alloc::{AllocError, Global};
use yq_core::{Scalar, Value};
use yq_scalar_reader::are_distinct;
use yq_semantics::{Expected, ParseError};

/// A word for a scalar, if one is in front, and what follows it.
fn word(text: &str) -> Option<(&'static str, &str)>
    ensures value { option_map (with_tokens (λ s. s.now)) result ≡ spec.word_at (tokens text.now) }
    ensures shorter { IsShorter text.now result }
{
    if let Some(rest) = after(text, "true") {
        return Some(("true", rest));
    }
    if let Some(rest) = after(text, "false") {
        return Some(("false", rest));
    }
    match after(text, "null") {
        Some(rest) => Some(("null", rest)),
        None => None,
    }
}

/// A scalar.
#[tactic(auto, unfolding(crate::specs::Parse::parse_scalar))]
pub(super) fn scalar(alloc: Global, text: &str) -> Result<(Scalar, &str), ParseError>
    ensures value { ReadsForm (λ s. s) result (spec.parse_scalar (tokens text.now)) }
    ensures shorter { Shortens text.now result }
{
    if let Some((digits, rest)) = number(text) {
        let scalar = Scalar::plain(alloc, digits)?;
        return Ok((scalar, rest));
    }
    if let Some((word, rest)) = word(text) {
        let scalar = Scalar::plain(alloc, word)?;
        return Ok((scalar, rest));
    }
    let (content, rest) = string(alloc, text, Expected::Value)?;
    Ok((Scalar::string(content), rest))
}

fn keys<'v>(alloc: Global, fields: &'v Vec<(String, Value)>) -> Result<Vec<&'v str>, AllocError>
    ensures { IfOk result (λ v. map (λ k. k.now) v.items ≡ field_keys fields.now) }
{
    let mut keys = Vec::new(alloc);
    for field in fields {
        keys.push(field.0.as_str())?;
    }
    Ok(keys)
}

/// Whether no two fields have the same key.
fn keys_differ(alloc: Global, fields: &Vec<(String, Value)>) -> Result<bool, AllocError>
    ensures { IfOk result (λ b. b ≡ are_distinct (map (λ e. e.0) (map field_of fields.now.items))) }
{
    let mut keys = keys(alloc, fields)?;
    Ok(are_distinct(&mut keys))
}

/// A scalar as a value.
fn scalar_value(alloc: Global, text: &str) -> Result<(Value, &str), ParseError>
    ensures value { ReadsForm value_node result (spec.scalar_node_at (tokens text.now)) }
    ensures shorter { Shortens text.now result }
{
    scalar(alloc, text).map(|(scalar, rest)| (Value::Scalar(scalar), rest))
}

/// A literal in which `depth` collections are nested at most.
#[cycle(literal)]
#[tactic(auto, unfolding(crate::specs::Parse::literal_at))]
pub(super) fn literal(alloc: Global, text: &str, depth: usize) -> Result<(Value, &str), ParseError>
    ensures value { ReadsForm value_node result (spec.literal_at depth (tokens text.now)) }
    ensures shorter { Shortens text.now result }
{
    if depth == 0 {
        return scalar_value(alloc, text);
    }
    if let Some(rest) = after(text, "[") {
        let (items, rest) = list(alloc, rest, depth - 1)?;
        return Ok((Value::List(items), rest));
    }
    if let Some(rest) = after(text, "{") {
        let (fields, rest) = mapping(alloc, rest, depth - 1)?;
        if keys_differ(alloc, &fields)? {
            return Ok((Value::Map(fields), rest));
        }
        return Err(ParseError::Fault(misread(text, Expected::OtherKeys)));
    }
    scalar_value(alloc, text)
}

/// The items of a list, from after its opening bracket.
#[cycle(literal)]
fn list(alloc: Global, text: &str, depth: usize) -> Result<(Vec<Value>, &str), ParseError>
    ensures value { ReadsAll value_node result (literal_items depth) text.now }
    ensures shorter { Shortens text.now result }
{
    let mut found = Vec::new(alloc);
    if let Some(rest) = after(text, "]") {
        return Ok((found, rest));
    }
    let mut rest = text;
    'items: loop {
        let (item, following) = literal(alloc, rest, depth)?;
        found.push(item)?;
        match after(following, ",") {
            Some(next) => rest = next,
            None => return closed(found, following, "]", Expected::Mark(']')),
        }
    }
}

/// The fields of a mapping, from after its opening brace.
#[cycle(literal)]
fn mapping(
    alloc: Global,
    text: &str,
    depth: usize,
) -> Result<(Vec<(String, Value)>, &str), ParseError>
    ensures value { ReadsAll field_of result (literal_fields depth) text.now }
    ensures shorter { Shortens text.now result }
{
    let mut found = Vec::new(alloc);
    if let Some(rest) = after(text, "}") {
        return Ok((found, rest));
    }
    let mut rest = text;
    'fields: loop {
        let (field, following) = field(alloc, rest, depth)?;
        found.push(field)?;
        match after(following, ",") {
            Some(next) => rest = next,
            None => return closed(found, following, "}", Expected::Mark('}')),
        }
    }
}

/// A string, `:` and a literal.
#[cycle(literal)]
fn field(alloc: Global, text: &str, depth: usize) -> Result<((String, Value), &str), ParseError>
    ensures value { ReadsOf field_of result (spec.field_at (spec.literal_at depth)) text.now }
    ensures shorter { Shortens text.now result }
{
    let (key, rest) = string(alloc, text, Expected::Key)?;
    let rest = expect(rest, ":", Expected::Mark(':'))?;
    let (value, rest) = literal(alloc, rest, depth)?;
    Ok(((key, value), rest))
}
