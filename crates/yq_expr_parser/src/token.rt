//! Tokens of a text, one after the other.
ghost use Rattle.std.specs.List.{prefix_len};
ghost use Rattle.std.specs.Prelude.{◌≡◌, ◌<◌, ◌≤◌, length, is_some, option_map, string_bytes, IfSome, IfOk, MatchOption};
ghost use Rattle.yq_expr_parser.specs.TokenView.{token_view};
ghost use Rattle.yq_semantics.specs.Tokens.{is_token_blank};
ghost use Rattle.yq_expr_parser.specs.Lexing as spec;
ghost use Rattle.yq_expr_parser.specs.Parse as parse;
ghost use Rattle.yq_semantics.specs.Tokens as grammar;

mod measure;
mod unescape;

use measure::measure;
use std::alloc::{AllocError, Global};

/// What kind of token a piece of a text is.
#[derive(Clone, Copy)]
pub(crate) enum TokenForm {
    /// A string in quotes.
    Text,
    Number,
    /// A step `.name`.
    Name,
    /// A step `."string"`.
    Quoted,
    /// A mark or a word of this language.
    Symbol,
    /// A token that only other expressions have.
    Foreign,
    /// No token begins there.
    Unread,
}

/// A token, as a piece of the text.
#[derive(Clone, Copy)]
pub(crate) struct Token<'t> {
    form: TokenForm,
    piece: &'t str,
}

fn is_blank_byte(b: u8) -> bool
    ensures { result ≡ is_token_blank b }
{
    matches!(b, b' ' | b'\t' | b'\n')
}

fn blanks_len(text: &[u8]) -> usize
    ensures value { result ≡ prefix_len is_token_blank text.now }
    ensures within { result ≤ length text.now }
{
    let mut n = 0;
    'blanks: while n < text.len() && is_blank_byte(text[n]) {
        n += 1;
    }
    n
}

/// What follows the white space in front.
#[tactic(auto, using(crate::proofs::Lexing::boundary_blank))]
fn past_blank(text: &str) -> &str
    ensures value { result.now ≡ spec.past_blank text.now }
    ensures within { length result.now ≤ length text.now }
{
    text.split_at(blanks_len(text.as_bytes())).1
}

/// How many bytes there are from the token in front on.
pub(crate) fn left_of(text: &str) -> usize {
    past_blank(text).len()
}

/// The token in front and what follows it, if the text doesn't end before.
#[tactic(auto, using(crate::proofs::Lexing::boundary_token, crate::proofs::Lexing::token_some))]
pub(crate) fn split_token(text: &str) -> Option<(Token<'_>, &str)>
    ensures value { option_map (λ x. (token_view x.0, x.1.now)) result ≡ spec.next_token text.now }
    ensures shorter { IfSome result (λ x. length x.1.now < length text.now) }
{
    let text = past_blank(text);
    if text.is_empty() {
        return None;
    }
    match measure(text.as_bytes()) {
        Some((form, len)) => {
            let (piece, rest) = text.split_at(len);
            Some((Token { form, piece }, rest))
        }
        None => Some((
            Token {
                form: TokenForm::Unread,
                piece: text,
            },
            "",
        )),
    }
}

impl<'t> Token<'t> {
    /// Whether it is the mark or the word.
    pub(crate) fn is_symbol(self, symbol: &str) -> bool
        ensures { result ≡ grammar.is_symbol symbol.now (token_view self.entry) }
    {
        match self.form {
            TokenForm::Symbol => self.piece == symbol,
            TokenForm::Text
            | TokenForm::Number
            | TokenForm::Name
            | TokenForm::Quoted
            | TokenForm::Foreign
            | TokenForm::Unread => false,
        }
    }

    /// How it is written.
    pub(crate) fn piece(self) -> &'t str {
        self.piece
    }

    /// Whether no token begins there.
    pub(crate) fn is_unread(self) -> bool
        ensures { result ≡ parse.is_unread (token_view self.entry) }
    {
        matches!(self.form, TokenForm::Unread)
    }

    /// Whether only other expressions have it.
    pub(crate) fn is_foreign(self) -> bool
        ensures { result ≡ parse.is_foreign_token (token_view self.entry) }
    {
        matches!(self.form, TokenForm::Foreign)
    }

    /// The number, as it is written.
    pub(crate) fn number(self) -> Option<&'t str>
        ensures { option_map (λ s. s.now) result ≡ spec.as_number (token_view self.entry) }
    {
        match self.form {
            TokenForm::Number => Some(self.piece),
            TokenForm::Text
            | TokenForm::Symbol
            | TokenForm::Name
            | TokenForm::Quoted
            | TokenForm::Foreign
            | TokenForm::Unread => None,
        }
    }

    /// The content of a string.
    pub(crate) fn string(self, alloc: Global) -> Result<Option<String>, AllocError>
        ensures { IfOk result (λ k. option_map string_bytes k ≡ spec.as_string (token_view self.entry)) }
    {
        match self.form {
            TokenForm::Text => {
                let content = unescape::content(alloc, unescape::past_quote(self.piece))?;
                Ok(Some(content))
            }
            TokenForm::Number
            | TokenForm::Symbol
            | TokenForm::Name
            | TokenForm::Quoted
            | TokenForm::Foreign
            | TokenForm::Unread => Ok(None),
        }
    }

    /// Whether it is a named step.
    pub(crate) fn is_step(self) -> bool
        ensures { result ≡ is_some (spec.as_step (token_view self.entry)) }
    {
        match self.form {
            TokenForm::Name | TokenForm::Quoted => true,
            TokenForm::Number
            | TokenForm::Symbol
            | TokenForm::Text
            | TokenForm::Foreign
            | TokenForm::Unread => false,
        }
    }

    /// The key of a step.
    pub(crate) fn key(self, alloc: Global) -> Result<Option<String>, AllocError>
        ensures { IfOk result (λ k. option_map string_bytes k ≡ spec.as_step (token_view self.entry)) }
    {
        match self.form {
            TokenForm::Name => {
                let key = String::from_str(alloc, unescape::past_dot(self.piece))?;
                Ok(Some(key))
            }
            TokenForm::Quoted => {
                let quoted = unescape::past_dot(self.piece);
                let key = unescape::content(alloc, unescape::past_quote(quoted))?;
                Ok(Some(key))
            }
            TokenForm::Number
            | TokenForm::Symbol
            | TokenForm::Text
            | TokenForm::Foreign
            | TokenForm::Unread => Ok(None),
        }
    }
}
