//! Updates.
ghost use Rattle.std.specs.Prelude.{◌≡◌, option_map};
ghost use Rattle.yq_expr_parser.{specs.ReadAnswers.{ReadsForm, Shortens, IsShorter, with_tokens}, specs.Lexing.tokens};
ghost use Rattle.yq_expr_parser.specs.FormAnswers.{ReadsOf, ReadsAll, all_updates, action_on};
ghost use Rattle.yq_semantics.{specs.Grammar.literal_depth, specs.View.{term_of, update_of}};
ghost use Rattle.yq_expr_parser.specs.Parse as spec;

use super::literal::literal;
use super::pipe::{left, pipe};
use crate::front::{after, begins_step, closed, expect, string};
use std::alloc::Global;
use yq_semantics::{
    Assignment, Comment, CommentPlace, Expected, Operator, ParseError, Stage, Term, Update,
};

/// How many collections may be nested in a literal.
const LITERAL_DEPTH: usize = 64;

#[tactic(auto, unfolding(yq_semantics::specs::Grammar::literal_depth))]
fn depth() -> usize
    ensures { result ≡ literal_depth }
{
    LITERAL_DEPTH
}

/// Whether a path or a parenthesis is in front.
fn begins_left(text: &str) -> bool
    ensures { result ≡ spec.begins_left (tokens text.now) }
{
    begins_step(text) || after(text, ".").is_some() || after(text, "(").is_some()
}

/// A term of a sum.
#[tactic(auto, unfolding(crate::specs::Parse::term_at))]
fn term(alloc: Global, text: &str) -> Result<(Term, &str), ParseError>
    ensures value { ReadsForm term_of result (spec.term_at literal_depth (tokens text.now)) }
    ensures shorter { Shortens text.now result }
{
    if begins_left(text) {
        return left(alloc, text).map(|(stages, rest)| (Term::Pipe(stages), rest));
    }
    literal(alloc, text, depth()).map(|(value, rest)| (Term::Literal(value), rest))
}

/// A sum: its terms.
#[tactic(auto, unfolding(crate::specs::Parse::right_at))]
fn right(alloc: Global, text: &str) -> Result<(Vec<Term>, &str), ParseError>
    ensures value { ReadsAll term_of result (spec.right_at literal_depth) text.now }
    ensures shorter { Shortens text.now result }
{
    let mut found = Vec::new(alloc);
    let mut rest = text;
    'terms: loop {
        let (term, following) = term(alloc, rest)?;
        found.push(term)?;
        match after(following, "+") {
            Some(next) => rest = next,
            None => return Ok((found, following)),
        }
    }
}

/// The operator of an assignment, if one is in front.
fn operator(text: &str) -> Option<(Operator, &str)>
    ensures value { option_map (with_tokens (λ o. o)) result ≡ spec.operator_at (tokens text.now) }
    ensures shorter { IsShorter text.now result }
{
    if let Some(rest) = after(text, "=") {
        return Some((Operator::Set, rest));
    }
    if let Some(rest) = after(text, "|=") {
        return Some((Operator::Modify, rest));
    }
    after(text, "+=").map(|rest| (Operator::Add, rest))
}

/// The place of a comment.
fn place(text: &str) -> Result<(CommentPlace, &str), ParseError>
    ensures value { ReadsForm (λ p. p) result (spec.place_at (tokens text.now)) }
    ensures shorter { Shortens text.now result }
{
    if let Some(rest) = after(text, "line_comment") {
        return Ok((CommentPlace::Line, rest));
    }
    closed(CommentPlace::Head, text, "head_comment", Expected::Operator)
}

/// What is done with what `left` finds.
#[tactic(auto, unfolding(crate::specs::Parse::action_at))]
fn action(alloc: Global, left: Vec<Stage>, text: &str) -> Result<(Update, &str), ParseError>
    ensures value { ReadsOf update_of result (action_on left) text.now }
    ensures shorter { Shortens text.now result }
{
    if let Some((operator, rest)) = operator(text) {
        let (right, rest) = right(alloc, rest)?;
        return Ok((
            Update::Assign(Assignment {
                left,
                operator,
                right,
            }),
            rest,
        ));
    }
    let (place, rest) = place(text)?;
    let (text, rest) = string(
        alloc,
        expect(rest, "=", Expected::Mark('='))?,
        Expected::Text,
    )?;
    Ok((Update::Comment(Comment { left, place, text }), rest))
}

/// An update.
#[tactic(auto, unfolding(crate::specs::Parse::parse_update))]
fn update(alloc: Global, text: &str) -> Result<(Update, &str), ParseError>
    ensures value { ReadsForm update_of result (spec.parse_update literal_depth (tokens text.now)) }
    ensures shorter { Shortens text.now result }
{
    if let Some(rest) = after(text, "del") {
        let (stages, rest) = pipe(alloc, expect(rest, "(", Expected::Mark('('))?)?;
        return closed(Update::Delete(stages), rest, ")", Expected::Mark(')'));
    }
    let (left, rest) = left(alloc, text)?;
    action(alloc, left, rest)
}

/// Updates, one after the other.
pub(super) fn updates(alloc: Global, text: &str) -> Result<(Vec<Update>, &str), ParseError>
    ensures value { ReadsAll update_of result all_updates text.now }
    ensures shorter { Shortens text.now result }
{
    let mut found = Vec::new(alloc);
    let mut rest = text;
    'updates: loop {
        let (update, following) = update(alloc, rest)?;
        found.push(update)?;
        match after(following, "|") {
            Some(next) => rest = next,
            None => return Ok((found, following)),
        }
    }
}
