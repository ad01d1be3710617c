//! Scalars and keys with what they mean and their pieces.
ghost use Rattle.std.specs.Prelude.{◌≡◌, ◌<◌, ◌≤◌, IfErr, IfOk, None, length, string_bytes, true};
ghost use Rattle.yq_core.{specs.Answers.IsOfText, specs.Borrowed.borrows_text, specs.Quoted.IsQuotedText, specs.Written.IsOneLine};
ghost use Rattle.yq_core.{specs.PlacedReading.{placed_key, placed_text}, specs.Scalar.plain_of, specs.Tree.scalar, specs.Trees.scalar_node};
ghost use Rattle.yq_inline.specs.InlineAnswers.{GivesCore, GivesKey};
ghost use Rattle.yq_core.specs.Scalars as scalars;

use crate::borrows;
use crate::pieces::{read_key, read_scalar};
use std::alloc::{AllocError, Global};
use yq_core::piece::inline_piece;
use yq_core::{Form, Kind, Piece, ReadError, Scalar, Style, between_quotes, is_quoted, resolve};
use yq_scalar_reader::folding::{plain_content, quoted_content};

/// The style of a plain or quoted scalar, as it is written (YAML 1.2.2, 7.3).
pub fn style_of(piece: &[u8]) -> Style
    ensures value { result ≡ scalars.scalar_style piece.now }
    ensures inline { IsOneLine result }
{
    match piece {
        [b'\'', ..] => Style::Single,
        [b'"', ..] => Style::Double,
        _ => Style::Plain,
    }
}

/// The text that a key or scalar means, where it is what is written, without its quotes.
#[tactic(auto, using(yq_core::proofs::BorrowedTexts::quoted_means, yq_core::proofs::BorrowedTexts::plain_means))]
pub fn borrowed_content(piece: &str) -> &str
    requires quoted { scalars.is_quoted piece.now ≡ true → IsQuotedText piece.now }
    requires borrows { borrows_text piece.now ≡ true }
    ensures { result.now ≡ scalars.scalar_content piece.now }
{
    if is_quoted(piece.as_bytes()) {
        between_quotes(piece)
    } else {
        piece
    }
}

/// The kind and the text of a plain scalar on one line.
pub fn plain_kind(text: &str) -> (Kind, &str)
    ensures { scalar None result.0 result.1.now ≡ scalar_node (plain_of text.now) }
{
    match resolve(text) {
        Kind::Null => (Kind::Null, "null"),
        kind => (kind, text),
    }
}

/// The text that a scalar, as it is written, means.
#[tactic(auto, unfolding(yq_core::specs::Scalars::scalar_content))]
fn content_of(alloc: Global, piece: &str) -> Result<String, AllocError>
    requires { scalars.is_quoted piece.now ≡ true → IsQuotedText piece.now }
    ensures { IfOk result (λ s. string_bytes s ≡ scalars.scalar_content piece.now) }
{
    if is_quoted(piece.as_bytes()) {
        quoted_content(alloc, piece)
    } else {
        plain_content(alloc, piece)
    }
}

/// The scalar that it means.
#[inline(always)]
#[tactic(auto, using(yq_core::proofs::BorrowedTexts::plain_scalar), unfolding(yq_core::specs::Scalars::scalar_of))]
fn scalar_of(alloc: Global, piece: &str) -> Result<Scalar, AllocError>
    requires { scalars.is_quoted piece.now ≡ true → IsQuotedText piece.now }
    ensures { IfOk result (λ s. s ≡ scalars.scalar_of piece.now) }
{
    if is_quoted(piece.as_bytes()) {
        let text = quoted_content(alloc, piece)?;
        return Ok(Scalar::string(text));
    }
    if borrows::borrows_text(piece) {
        return Scalar::plain(alloc, piece);
    }
    let text = plain_content(alloc, piece)?;
    Scalar::from_plain(alloc, text)
}

/// The scalar in front, with its piece, and what follows it.
#[inline(always)]
pub(crate) fn read_text<'t>(
    alloc: Global,
    flow: bool,
    spaces: Option<usize>,
    whole: &str,
    text: &'t str,
) -> Result<(Form<'t>, &'t str), ReadError>
    requires { length text.now ≤ length whole.now }
    ensures shorter { IfOk result (λ x. length x.1.now ≤ length text.now) }
    ensures read { GivesCore result (placed_text flow spaces (length whole.now) text.now) }
    ensures fault { IfErr result IsOfText }
{
    let (piece, rest) = read_scalar(flow, spaces, whole, text)?;
    let scalar = scalar_of(alloc, piece)?;
    let place = inline_piece(
        style_of(piece.as_bytes()),
        whole.len() - text.len(),
        whole.len() - rest.len(),
    );
    Ok((Form::Scalar(scalar, place), rest))
}

/// The key in front with its content and piece, and what follows its `:`; after the mapping's `{` was
/// `open`.
pub(crate) fn read_entry_key<'t>(
    alloc: Global,
    whole: &str,
    open: &str,
    text: &'t str,
) -> Result<(String, Piece, &'t str), ReadError>
    requires { length text.now ≤ length whole.now }
    ensures shorter { IfOk result (λ x. length x.2.now < length text.now) }
    ensures read { GivesKey result (placed_key (length whole.now) text.now) }
    ensures fault { IfErr result IsOfText }
{
    let (piece, rest) = read_key(whole, open, text)?;
    let key = content_of(alloc, piece)?;
    let start = whole.len() - text.len();
    let place = inline_piece(style_of(piece.as_bytes()), start, start + piece.len());
    Ok((key, place, rest))
}
