//! The texts that keys and scalars mean.
ghost use Rattle.std.specs.Prelude.{◌≡◌, IfOk, None, Some, true};
ghost use Rattle.yq_core.{specs.Quoted.IsQuotedText, specs.Scalar.plain_of, specs.Trees.scalar_node};
ghost use Rattle.yq_outline.specs.View.{content_view, head_view, head_flow};
ghost use Rattle.yq_core.specs.ContentReading as reading;
ghost use Rattle.yq_core.specs.Scalars as scalars;

use std::alloc::{AllocError, Global};
use yq_core::{Kind, between_quotes, is_quoted, resolve};
use yq_outline::{Head, ScalarContent};
use yq_scalar_reader::folding::{plain_content, quoted_content};
use yq_scalar_reader::plain::holds_break;
use yq_scalar_reader::quoted_line::is_quoted_line;

/// The text that a quoted scalar means: one on one line without escapes is borrowed.
fn quoted_text<'t>(alloc: Global, piece: &'t str) -> Result<ScalarContent<'t>, AllocError>
    requires scalar { IsQuotedText piece.now }
    requires quoted { scalars.is_quoted piece.now ≡ true }
    ensures { IfOk result (λ c. content_view c ≡ reading.quoted_content piece.now) }
{
    if is_quoted_line(piece.as_bytes()) {
        return Ok(ScalarContent::Slice(between_quotes(piece)));
    }
    let text = quoted_content(alloc, piece)?;
    Ok(ScalarContent::Own(text))
}

/// The text that a key or a scalar, as it is written, means: one on one line without escapes is borrowed.
#[tactic(auto, unfolding(yq_core::specs::Scalars::scalar_content), using(yq_core::proofs::OneLine::one_line))]
pub(crate) fn content_of<'t>(alloc: Global, piece: &'t str) -> Result<ScalarContent<'t>, AllocError>
    requires { scalars.is_quoted piece.now ≡ true → IsQuotedText piece.now }
    ensures { IfOk result (λ c. content_view c ≡ scalars.scalar_content piece.now) }
{
    if is_quoted(piece.as_bytes()) {
        return quoted_text(alloc, piece);
    }
    if holds_break(piece) {
        let text = plain_content(alloc, piece)?;
        return Ok(ScalarContent::Own(text));
    }
    Ok(ScalarContent::Slice(piece))
}

/// The head that a plain scalar on one line is.
pub(crate) fn plain_head(text: &str) -> Head<'_>
    ensures view { head_view result ≡ Some (scalar_node (plain_of text.now)) }
    ensures flow { head_flow result ≡ None }
{
    match resolve(text) {
        Kind::Null => Head::Scalar(Kind::Null, ScalarContent::Slice("null")),
        kind => Head::Scalar(kind, ScalarContent::Slice(text)),
    }
}
