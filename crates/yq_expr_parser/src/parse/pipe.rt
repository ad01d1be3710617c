//! Conditions, stages and pipes.
ghost use Rattle.std.specs.Prelude.{◌<◌, map};
ghost use Rattle.yq_expr_parser.{specs.ReadAnswers.{ReadsForm, Shortens}, specs.Lexing.tokens};
ghost use Rattle.yq_semantics.specs.View.{operand_of, condition_of, stage_of};
ghost use Rattle.yq_expr_parser.specs.Parse as spec;

use super::literal::scalar;
use super::path::path;
use crate::front::{after, closed, expect, misread, string};
use std::alloc::Global;
use yq_semantics::{Comparison, Condition, Expected, Operand, ParseError, Stage, is_simple};

/// What is compared.
#[tactic(auto, using(yq_semantics::proofs::Lists::list_all_map), unfolding(crate::specs::Parse::operand_at))]
fn operand(alloc: Global, text: &str) -> Result<(Operand, &str), ParseError>
    ensures value { ReadsForm operand_of result (spec.operand_at (tokens text.now)) }
    ensures shorter { Shortens text.now result }
{
    if let Some(rest) = after(text, "di") {
        return Ok((Operand::DocumentIndex, rest));
    }
    if let Some(rest) = after(text, "document_index") {
        return Ok((Operand::DocumentIndex, rest));
    }
    let (steps, rest) = path(alloc, text)?;
    if is_simple(&steps) {
        return Ok((Operand::Path(steps), rest));
    }
    Err(ParseError::Fault(misread(text, Expected::OneValue)))
}

/// `==`, which is true, or `!=`.
fn comparison(text: &str) -> Result<(bool, &str), ParseError>
    ensures value { ReadsForm (λ b. b) result (spec.comparison_at (tokens text.now)) }
    ensures shorter { Shortens text.now result }
{
    if let Some(rest) = after(text, "==") {
        return Ok((true, rest));
    }
    closed(false, text, "!=", Expected::Comparison)
}

/// A condition.
#[tactic(auto, unfolding(crate::specs::Parse::condition_at))]
fn condition(alloc: Global, text: &str) -> Result<(Condition, &str), ParseError>
    ensures value { ReadsForm condition_of result (spec.condition_at (tokens text.now)) }
    ensures shorter { Shortens text.now result }
{
    if let Some(rest) = after(text, "has") {
        let (key, rest) = string(
            alloc,
            expect(rest, "(", Expected::Mark('('))?,
            Expected::Key,
        )?;
        return closed(Condition::Has(key), rest, ")", Expected::Mark(')'));
    }
    let (operand, rest) = operand(alloc, text)?;
    let (equal, rest) = comparison(rest)?;
    scalar(alloc, rest).map(|(scalar, rest)| {
        let comparison = Comparison {
            operand,
            equal,
            scalar,
        };
        (Condition::Compare(comparison), rest)
    })
}

/// A stage of a pipe.
#[tactic(auto, unfolding(crate::specs::Parse::stage_at))]
fn stage(alloc: Global, text: &str) -> Result<(Stage, &str), ParseError>
    ensures value { ReadsForm stage_of result (spec.stage_at (tokens text.now)) }
    ensures shorter { Shortens text.now result }
{
    if let Some(rest) = after(text, "select") {
        let (condition, rest) = condition(alloc, expect(rest, "(", Expected::Mark('('))?)?;
        return closed(Stage::Select(condition), rest, ")", Expected::Mark(')'));
    }
    path(alloc, text).map(|(steps, rest)| (Stage::Path(steps), rest))
}

/// A pipe: its stages.
#[tactic(auto, unfolding(crate::specs::Parse::pipe_at))]
pub(super) fn pipe(alloc: Global, text: &str) -> Result<(Vec<Stage>, &str), ParseError>
    ensures value { ReadsForm (λ v. map stage_of v.items) result (spec.pipe_at (tokens text.now)) }
    ensures shorter { Shortens text.now result }
{
    let mut found = Vec::new(alloc);
    let mut rest = text;
    'stages: loop {
        let (stage, following) = stage(alloc, rest)?;
        found.push(stage)?;
        match after(following, "|") {
            Some(next) => rest = next,
            None => return Ok((found, following)),
        }
    }
}

/// The left side of an update: a path, or a pipe in parentheses.
#[tactic(auto, unfolding(crate::specs::Parse::left_at))]
pub(super) fn left(alloc: Global, text: &str) -> Result<(Vec<Stage>, &str), ParseError>
    ensures value { ReadsForm (λ v. map stage_of v.items) result (spec.left_at (tokens text.now)) }
    ensures shorter { Shortens text.now result }
{
    if let Some(rest) = after(text, "(") {
        let (stages, rest) = pipe(alloc, rest)?;
        return closed(stages, rest, ")", Expected::Mark(')'));
    }
    let (steps, rest) = path(alloc, text)?;
    let mut stages = Vec::new(alloc);
    stages.push(Stage::Path(steps))?;
    Ok((stages, rest))
}
