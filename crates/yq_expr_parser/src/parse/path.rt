//! Paths.
ghost use Rattle.std.specs.Prelude.{◌<◌, ◌≤◌, vec_len, length, map, IfOk};
ghost use Rattle.yq_expr_parser.{specs.ReadAnswers.{ReadsForm, ReadsMaybe, Shortens, IsShorter}, specs.Lexing.tokens};
ghost use Rattle.yq_expr_parser.specs.FormAnswers.{ReadsAll};
ghost use Rattle.yq_semantics.specs.View.{program_step};
ghost use Rattle.yq_expr_parser.specs.Parse as spec;

use crate::front::{after, closed, key, misread, number, string};
use std::alloc::Global;
use yq_scalar_reader::int_value;
use yq_semantics::{Expected, ParseError, PathStep};

/// A step in brackets, from after the opening one.
#[tactic(auto, unfolding(crate::specs::Parse::bracketed_at))]
fn bracketed(alloc: Global, text: &str) -> Result<(PathStep, &str), ParseError>
    ensures value { ReadsForm program_step result (spec.bracketed_at (tokens text.now)) }
    ensures shorter { Shortens text.now result }
{
    if let Some(rest) = after(text, "]") {
        return Ok((PathStep::Each, rest));
    }
    if let Some((digits, rest)) = number(text) {
        let index = int_value(digits).ok_or(ParseError::Fault(misread(text, Expected::Step)))?;
        return closed(PathStep::Index(index), rest, "]", Expected::Mark(']'));
    }
    let (key, rest) = string(alloc, text, Expected::Step)?;
    closed(PathStep::Key(key), rest, "]", Expected::Mark(']'))
}

/// A step in brackets, if an opening one is in front.
fn bracket(alloc: Global, text: &str) -> Result<Option<(PathStep, &str)>, ParseError>
    ensures value { ReadsMaybe program_step result (spec.bracket_at (tokens text.now)) }
    ensures shorter { IfOk result (λ o. IsShorter text.now o) }
{
    match after(text, "[") {
        Some(rest) => bracketed(alloc, rest).map(Some),
        None => Ok(None),
    }
}

/// A step of a path, if one is in front.
#[tactic(auto, unfolding(crate::specs::Parse::step_at))]
fn next_step(alloc: Global, text: &str) -> Result<Option<(PathStep, &str)>, ParseError>
    ensures value { ReadsMaybe program_step result (spec.step_at (tokens text.now)) }
    ensures shorter { IfOk result (λ o. IsShorter text.now o) }
{
    if let Some((key, rest)) = key(alloc, text)? {
        return Ok(Some((PathStep::Key(key), rest)));
    }
    match after(text, ".") {
        Some(rest) => bracket(alloc, rest),
        None => bracket(alloc, text),
    }
}

/// The steps in front, all of them.
fn steps(alloc: Global, text: &str) -> Result<(Vec<PathStep>, &str), ParseError>
    ensures value { ReadsAll program_step result (spec.many spec.step_at) text.now }
    ensures within { IfOk result (λ x. length x.1.now ≤ length text.now) }
    ensures shorter { IfOk result (λ x. 0 < vec_len x.0 → length x.1.now < length text.now) }
{
    let mut steps = Vec::new(alloc);
    let mut rest = text;
    'steps: loop {
        match next_step(alloc, rest)? {
            Some((step, after)) => {
                steps.push(step)?;
                rest = after;
            }
            None => return Ok((steps, rest)),
        }
    }
}

/// A path: its steps, none for `.`.
#[tactic(auto, unfolding(crate::specs::Parse::path_at))]
pub(super) fn path(alloc: Global, text: &str) -> Result<(Vec<PathStep>, &str), ParseError>
    ensures value { ReadsForm (λ v. map program_step v.items) result
        (spec.path_at (tokens text.now)) }
    ensures shorter { Shortens text.now result }
{
    if after(text, "[").is_some() {
        return Err(ParseError::Fault(misread(text, Expected::Path)));
    }
    let (steps, rest) = steps(alloc, text)?;
    if steps.is_empty() {
        return closed(steps, rest, ".", Expected::Path);
    }
    Ok((steps, rest))
}
