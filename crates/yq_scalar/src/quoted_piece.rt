//! The quoted scalar at an offset of a text.
ghost use Rattle.std.{specs.Prelude.{◌≡◌, IfErr, IfOk, Ok}, specs.Str.IsCharBoundary};
ghost use Rattle.yq_core.{specs.Answers.ReadsAs, specs.ScalarPiece.IsReadPiece, specs.declared.fault.FaultKind.TheVariants.BadScalar};
ghost use Rattle.yq_core.specs.declared.piece.Piece.{Piece};
ghost use Rattle.yq_core.specs.QuotedPiece as spec;

use yq_core::{FaultKind, Piece, Style, inline_piece};
use yq_scalar_reader::split_quoted;

/// The style of a scalar in these quotes.
fn style_of(quote: u8) -> Style
    ensures { result ≡ spec.quoted_style quote }
{
    if quote == b'\'' {
        Style::Single
    } else {
        Style::Double
    }
}

/// The quoted scalar that begins at an offset of a text, in bytes (YAML 1.2.2, sections 7.3.1 and
/// 7.3.2).
///
/// Refused as [`FaultKind::BadScalar`], exactly where no quoted scalar begins there. Takes no memory.
#[tactic(auto, using(yq_core::proofs::QuotedPieceLaws::found_by))]
pub fn read_quoted(text: &str, at: usize) -> Result<Piece, FaultKind>
    requires { IsCharBoundary text.now at }
    ensures exact { ReadsAs (λ p. p) result (spec.quoted_from at text.now) }
    ensures found { IfOk result (spec.IsQuotedPiece at text.now) }
    ensures only { (p : Piece) → spec.IsQuotedPiece at text.now p → result ≡ Ok p }
    ensures is_piece { IfOk result (IsReadPiece text.now) }
    ensures fault { IfErr result (λ kind. kind ≡ BadScalar) }
{
    quoted_from(text, at)
}

#[tactic(auto, unfolding(yq_core::specs::QuotedPiece::quoted_from))]
fn quoted_from(text: &str, at: usize) -> Result<Piece, FaultKind>
    requires { IsCharBoundary text.now at }
    ensures read { ReadsAs (λ p. p) result (spec.quoted_from at text.now) }
    ensures fault { IfErr result (λ kind. kind ≡ BadScalar) }
{
    let (scalar, _) = split_quoted(text.split_at(at).1)?;
    Ok(inline_piece(style_of(scalar.as_bytes()[0]), at, at + scalar.len()))
}
