//! Texts are parsed into programs.
ghost use Rattle.std.specs.Prelude.{◌≡◌, IfOk, IfErr};
ghost use Rattle.yq_expr_parser.{specs.ReadAnswers.GivesForm, specs.Lexing.tokens, specs.Outcome.{Answers, ExprRefused}};
ghost use Rattle.yq_expr_parser.specs.FormAnswers.{GivesAll, IsProgramOf, AnswersEach};
ghost use Rattle.yq_semantics.{specs.Parsing.refusal, specs.Grammar.literal_depth, specs.View.{stage_of, program_of}};
ghost use Rattle.yq_expr_parser.specs.Parse as spec;

mod literal;
mod path;
mod pipe;
mod update;

use crate::front::{is_end, misread};
use crate::pattern::{has_pattern, pattern_left};
use crate::survey::survey;
use std::alloc::Global;
use yq_semantics::{Expected, ParseError, ParseFault, Program, Stage, Syntax, Update};

/// The program that a text says. Refusals come in this order: a token that can't be read, then a
/// token of other expressions or more than 64 open brackets, then what is no program, then a
/// pattern.
pub fn parse_expr(alloc: Global, text: &str) -> Result<Program, ParseError>
    ensures exact { Answers program_of result (spec.outcome text.now) }
    ensures found { IfOk result (λ p. IsProgramOf text.now (program_of p)) }
    ensures only { AnswersEach program_of result text.now }
    ensures refused { IfErr result (λ e. ExprRefused e text.now) }
{
    parse(alloc, text)
}

/// The program of a text.
fn parse(alloc: Global, text: &str) -> Result<Program, ParseError>
    ensures { Answers program_of result (spec.outcome text.now) }
{
    let syntax = syntax(alloc, text)?;
    Ok(Program::new(syntax))
}

/// The syntax tree of the program of a text.
#[tactic(auto, unfolding(crate::specs::Parse::outcome))]
fn syntax(alloc: Global, text: &str) -> Result<Syntax, ParseError>
    ensures { Answers program_of result (spec.outcome text.now) }
{
    let (is_other, left) = survey(text)?;
    if is_other {
        return Err(ParseError::Fault(ParseFault::NotInProfile { left }));
    }
    let syntax = program(alloc, text)?;
    if has_pattern(&syntax) {
        let left = pattern_left(text);
        return Err(ParseError::Fault(ParseFault::Pattern { left }));
    }
    Ok(syntax)
}

/// A pipe, and no more.
fn read(alloc: Global, text: &str) -> Result<Vec<Stage>, ParseError>
    ensures { GivesAll stage_of result (spec.whole_form spec.pipe_at (tokens text.now)) }
{
    let (stages, rest) = pipe::pipe(alloc, text)?;
    if is_end(rest) {
        Ok(stages)
    } else {
        Err(ParseError::Fault(misread(rest, Expected::End)))
    }
}

/// Updates, and no more.
#[tactic(auto, unfolding(crate::specs::Parse::updates_at))]
fn updates(alloc: Global, text: &str) -> Result<Syntax, ParseError>
    ensures { GivesForm program_of result (spec.updates_at literal_depth (tokens text.now)) }
{
    let (updates, rest) = update::updates(alloc, text)?;
    if is_end(rest) {
        Ok(Syntax::Updates(updates))
    } else {
        Err(ParseError::Fault(misread(rest, Expected::End)))
    }
}

/// That one of two faults of the same refusal that is further on in the text.
fn further(fault: ParseFault, other: ParseFault) -> ParseFault
    requires { refusal fault ≡ refusal other }
    ensures { refusal result ≡ refusal other }
{
    if fault.left() < other.left() {
        fault
    } else {
        other
    }
}

/// A program: a pipe if the text is one, and else updates.
#[tactic(auto, unfolding(crate::specs::Parse::program_at))]
fn program(alloc: Global, text: &str) -> Result<Syntax, ParseError>
    ensures { GivesForm program_of result (spec.program_at literal_depth (tokens text.now)) }
{
    match read(alloc, text) {
        Ok(stages) => Ok(Syntax::Read(stages)),
        Err(ParseError::Memory) => Err(ParseError::Memory),
        Err(ParseError::Fault(first)) => match updates(alloc, text) {
            Ok(syntax) => Ok(syntax),
            Err(ParseError::Memory) => Err(ParseError::Memory),
            Err(ParseError::Fault(fault)) => Err(ParseError::Fault(further(first, fault))),
        },
    }
}
