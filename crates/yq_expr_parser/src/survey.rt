//! What is known of a text before it is parsed.
ghost use Rattle.std.specs.Prelude.{◌≡◌, ◌+◌, ◌^◌, ◌<◌, false};
ghost use Rattle.yq_expr_parser.{specs.ReadAnswers.GivesForm, specs.Lexing.tokens, specs.TokenView.token_view};
ghost use Rattle.yq_expr_parser.specs.Outcome as grammar;
ghost use Rattle.yq_expr_parser.specs.Parse as spec;

use crate::front::misread;
use crate::token::{Token, left_of, split_token};
use yq_semantics::{Expected, ParseError};

/// How many brackets may be open at one place.
const MAX_OPEN: usize = 64;

fn is_opening(token: Token<'_>) -> bool
    ensures { result ≡ grammar.is_opening (token_view token.entry) }
{
    token.is_symbol("[") || token.is_symbol("{")
}

fn is_closing(token: Token<'_>) -> bool
    ensures { result ≡ grammar.is_closing (token_view token.entry) }
{
    token.is_symbol("]") || token.is_symbol("}")
}

fn counted(found: bool, n: usize) -> usize
    requires { n + 1 < 2 ^ 64 }
    ensures { result ≡ grammar.count_if found n }
{
    if found { n + 1 } else { n }
}

/// How much is left from the first token on that is found.
fn first_left(is_found: bool, left: usize, rest: &str) -> usize {
    if is_found { left } else { left_of(rest) }
}

/// Whether the text has a token that only other expressions have, or too many open brackets, and how
/// much is left from the first such token on.
#[tactic(auto, using(crate::proofs::Lexing::tokens_next), unfolding(crate::specs::Parse::surveyed))]
pub(crate) fn survey(text: &str) -> Result<(bool, usize), ParseError>
    ensures { GivesForm (λ x. x.0) result (spec.surveyed false 0 0 (tokens text.now)) }
{
    let mut other = false;
    let mut left = 0;
    let mut opened = 0;
    let mut closed = 0;
    let mut rest = text;
    'tokens: loop {
        let Some((token, after)) = split_token(rest) else {
            return Ok((other, left));
        };
        if token.is_unread() {
            return Err(ParseError::Fault(misread(rest, Expected::Unknown)));
        }
        opened = counted(is_opening(token), opened);
        closed = counted(is_closing(token), closed);
        left = first_left(other, left, rest);
        other = other || token.is_foreign() || closed + MAX_OPEN < opened;
        rest = after;
    }
}
