//! What is in front of a text, token by token.
ghost use Rattle.std.specs.Prelude.{◌≡◌, ◌<◌, length, is_some, option_map, string_bytes, IfSome, IfOk};
ghost use Rattle.yq_expr_parser.specs.ReadAnswers.{GivesForm, ReadsForm, Shortens, IsShorter, with_tokens};
ghost use Rattle.yq_expr_parser.specs.FormAnswers.{tokens_after, taken_from, closed_form, TakesKey};
ghost use Rattle.yq_semantics.specs.Parsing.{refusal, ill_formed};
ghost use Rattle.yq_expr_parser.specs.Lexing as spec;

use crate::token::{left_of, split_token};
use std::alloc::Global;
use yq_semantics::{Expected, ParseError, ParseFault};

/// Whether no token is left.
#[tactic(auto, using(crate::proofs::Lexing::tokens_next))]
pub(crate) fn is_end(text: &str) -> bool
    ensures { result ≡ spec.no_tokens (spec.tokens text.now) }
{
    split_token(text).is_none()
}

/// What follows the mark or word, if it is in front.
#[tactic(auto, using(crate::proofs::Lexing::tokens_next))]
pub(crate) fn after<'t>(text: &'t str, symbol: &str) -> Option<&'t str>
    ensures value { option_map (λ r. spec.tokens r.now) result ≡ tokens_after symbol.now text.now }
    ensures shorter { IfSome result (λ r. length r.now < length text.now) }
{
    match split_token(text) {
        Some((token, rest)) => {
            if token.is_symbol(symbol) {
                Some(rest)
            } else {
                None
            }
        }
        None => None,
    }
}

/// The fault of a text that doesn't have in front what an expression has there.
pub(crate) fn misread(text: &str, expected: Expected) -> ParseFault
    ensures { refusal result ≡ ill_formed }
{
    ParseFault::Syntax {
        left: left_of(text),
        expected,
    }
}

/// What follows the mark or word, which has to be in front. `expected` is the form that is there in
/// expressions.
pub(crate) fn expect<'t>(
    text: &'t str,
    symbol: &str,
    expected: Expected,
) -> Result<&'t str, ParseError>
    ensures value { GivesForm (λ r. spec.tokens r.now) result (tokens_after symbol.now text.now) }
    ensures shorter { IfOk result (λ r. length r.now < length text.now) }
{
    after(text, symbol).ok_or(ParseError::Fault(misread(text, expected)))
}

/// A form and what follows the mark, which has to be after the form.
pub(crate) fn closed<'t, T: Drop>(
    form: T,
    text: &'t str,
    mark: &str,
    expected: Expected,
) -> Result<(T, &'t str), ParseError>
    ensures value { ReadsForm (λ x. x) result (closed_form form mark.now text.now) }
    ensures shorter { Shortens text.now result }
{
    let rest = expect(text, mark, expected)?;
    Ok((form, rest))
}

/// The number in front, as it is written, and what follows it.
#[tactic(auto, using(crate::proofs::Lexing::tokens_next))]
pub(crate) fn number(text: &str) -> Option<(&str, &str)>
    ensures value { option_map (with_tokens (λ s. s.now)) result ≡ taken_from spec.as_number text.now }
    ensures shorter { IsShorter text.now result }
{
    match split_token(text) {
        Some((token, rest)) => match token.number() {
            Some(number) => Some((number, rest)),
            None => None,
        },
        None => None,
    }
}

/// The string in front, which has to be there, and what follows it.
#[tactic(auto, using(crate::proofs::Lexing::tokens_next))]
pub(crate) fn string<'t>(
    alloc: Global,
    text: &'t str,
    expected: Expected,
) -> Result<(String, &'t str), ParseError>
    ensures value { ReadsForm string_bytes result (spec.taken spec.as_string (spec.tokens text.now)) }
    ensures shorter { Shortens text.now result }
{
    match split_token(text) {
        Some((token, rest)) => match token.string(alloc)? {
            Some(content) => Ok((content, rest)),
            None => Err(ParseError::Fault(misread(text, expected))),
        },
        None => Err(ParseError::Fault(misread(text, expected))),
    }
}

/// The key of the named step in front and what follows it, if one is there.
#[tactic(auto, using(crate::proofs::Lexing::tokens_next))]
pub(crate) fn key(alloc: Global, text: &str) -> Result<Option<(String, &str)>, ParseError>
    ensures value { TakesKey result text.now }
    ensures shorter { IfOk result (λ o. IsShorter text.now o) }
{
    match split_token(text) {
        Some((token, rest)) => match token.key(alloc)? {
            Some(key) => Ok(Some((key, rest))),
            None => Ok(None),
        },
        None => Ok(None),
    }
}

/// Whether a named step is in front.
#[tactic(auto, using(crate::proofs::Lexing::tokens_next))]
pub(crate) fn begins_step(text: &str) -> bool
    ensures { result ≡ is_some (spec.taken spec.as_step (spec.tokens text.now)) }
{
    match split_token(text) {
        Some((token, _)) => token.is_step(),
        None => false,
    }
}
