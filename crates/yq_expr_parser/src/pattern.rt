//! Patterns, which this language has not.
ghost use Rattle.std.{specs.List.list_any, specs.Prelude.{◌≡◌, ◌==◌, ◌||◌, string_bytes}};
ghost use Rattle.yq_semantics.specs.View.{program_step, operand_of, condition_of, stage_of, term_of, update_of, program_of};
ghost use Rattle.yq_expr_parser.specs.Outcome as spec;

use crate::token::{Token, left_of, split_token};
use yq_semantics::{Condition, Operand, PathStep, Stage, Syntax, Term, Update};

/// Whether the text has a `*` or a `?`.
fn is_pattern(text: &str) -> bool
    ensures { result ≡ spec.is_pattern text.now }
{
    text.as_bytes().iter().any(|b| *b == b'*' || *b == b'?')
}

fn step_matches(step: &PathStep) -> bool
    ensures { result ≡ spec.step_matches (program_step step.now) }
{
    match step {
        PathStep::Key(key) => is_pattern(key.as_str()),
        PathStep::Index(_) | PathStep::Each => false,
    }
}

fn path_matches(steps: &[PathStep]) -> bool
    ensures { result ≡ list_any (λ s. spec.step_matches (program_step s)) steps.now }
{
    steps.iter().any(|step| step_matches(step))
}

#[tactic(auto, using(yq_semantics::proofs::Lists::list_any_map))]
fn operand_matches(operand: &Operand) -> bool
    ensures { result ≡ spec.operand_matches (operand_of operand.now) }
{
    match operand {
        Operand::Path(steps) => path_matches(steps),
        Operand::DocumentIndex => false,
    }
}

fn condition_matches(condition: &Condition) -> bool
    ensures { result ≡ spec.condition_matches (condition_of condition.now) }
{
    match condition {
        Condition::Compare(comparison) => {
            operand_matches(&comparison.operand) || is_pattern(comparison.scalar.text())
        }
        Condition::Has(key) => is_pattern(key.as_str()),
    }
}

#[tactic(auto, using(yq_semantics::proofs::Lists::list_any_map))]
fn stage_matches(stage: &Stage) -> bool
    ensures { result ≡ spec.stage_matches (stage_of stage.now) }
{
    match stage {
        Stage::Path(steps) => path_matches(steps),
        Stage::Select(condition) => condition_matches(condition),
    }
}

fn pipe_matches(stages: &[Stage]) -> bool
    ensures { result ≡ list_any (λ s. spec.stage_matches (stage_of s)) stages.now }
{
    stages.iter().any(|stage| stage_matches(stage))
}

#[tactic(auto, using(yq_semantics::proofs::Lists::list_any_map))]
fn term_matches(term: &Term) -> bool
    ensures { result ≡ spec.term_matches (term_of term.now) }
{
    match term {
        Term::Literal(_) => false,
        Term::Pipe(stages) => pipe_matches(stages),
    }
}

fn sum_matches(terms: &[Term]) -> bool
    ensures { result ≡ list_any (λ t. spec.term_matches (term_of t)) terms.now }
{
    terms.iter().any(|term| term_matches(term))
}

#[tactic(auto, using(yq_semantics::proofs::Lists::list_any_map))]
fn update_matches(update: &Update) -> bool
    ensures { result ≡ spec.update_matches (update_of update.now) }
{
    match update {
        Update::Assign(assignment) => {
            pipe_matches(&assignment.left) || sum_matches(&assignment.right)
        }
        Update::Delete(stages) => pipe_matches(stages),
        Update::Comment(comment) => pipe_matches(&comment.left),
    }
}

fn any_matches(updates: &[Update]) -> bool
    ensures { result ≡ list_any (λ u. spec.update_matches (update_of u)) updates.now }
{
    updates.iter().any(|update| update_matches(update))
}

/// Whether a bracket after the token opens a list, and no step.
fn precedes_list(token: Token<'_>) -> bool {
    token.is_symbol("=")
        || token.is_symbol("|=")
        || token.is_symbol("+=")
        || token.is_symbol("+")
        || token.is_symbol("[")
        || token.is_symbol(",")
        || token.is_symbol(":")
}

/// Whether a string after the token is compared, or is a key.
fn precedes_key(token: Token<'_>, opens_list: bool) -> bool {
    token.is_symbol("==")
        || token.is_symbol("!=")
        || token.is_symbol("(")
        || (token.is_symbol("[") && !opens_list)
}

/// Whether the program asks for keys or values that match a pattern.
#[tactic(auto, using(yq_semantics::proofs::Lists::list_any_map))]
pub(crate) fn has_pattern(syntax: &Syntax) -> bool
    ensures { result ≡ spec.has_pattern (program_of syntax.now) }
{
    match syntax {
        Syntax::Read(stages) => pipe_matches(stages),
        Syntax::Updates(updates) => any_matches(updates),
    }
}

/// How much of the text of such a program is left from the first token on that is such a key, or such a
/// string that isn't written as a value.
pub(crate) fn pattern_left(text: &str) -> usize {
    let mut is_key = false;
    let mut opens_list = false;
    let mut rest = text;
    'tokens: while let Some((token, after)) = split_token(rest) {
        if is_pattern(token.piece()) && (is_key || token.is_step()) {
            return left_of(rest);
        }
        is_key = precedes_key(token, opens_list);
        opens_list = precedes_list(token);
        rest = after;
    }
    0
}
