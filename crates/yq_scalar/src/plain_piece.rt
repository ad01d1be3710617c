//! The plain scalar at an offset of a text.
ghost use Rattle.std.{specs.Prelude.{◌≡◌, IfErr, IfOk, Ok}, specs.Str.IsCharBoundary};
ghost use Rattle.yq_core.{specs.Answers.ReadsAs, specs.ScalarPiece.IsReadPiece, specs.declared.fault.FaultKind.TheVariants.BadScalar};
ghost use Rattle.yq_core.specs.declared.piece.Piece.{Piece};
ghost use Rattle.yq_core.specs.Piece as spec;

use yq_core::{FaultKind, Piece, Place, Style, further_spaces, inline_piece};
use yq_scalar_reader::{begins_plain, in_flow, split_plain};

/// The longest plain scalar that begins at an offset of a text, in bytes (YAML 1.2.2, section 7.3.3).
/// `indent` is the indentation of its parent, in columns, or -1 if it has none.
///
/// Refused as [`FaultKind::BadScalar`], exactly where no plain scalar begins there. Takes no memory.
#[tactic(auto, using(yq_core::proofs::PieceLaws::found_by))]
pub fn read_plain(text: &str, at: usize, place: Place, indent: i64) -> Result<Piece, FaultKind>
    requires { IsCharBoundary text.now at }
    ensures exact { ReadsAs (λ p. p) result (spec.plain_from place indent at text.now) }
    ensures found { IfOk result (spec.IsPlainPiece place indent at text.now) }
    ensures only { (p : Piece) → spec.IsPlainPiece place indent at text.now p → result ≡ Ok p }
    ensures is_piece { IfOk result (IsReadPiece text.now) }
    ensures fault { IfErr result (λ kind. kind ≡ BadScalar) }
{
    plain_from(text, at, place, indent)
}

#[tactic(auto, unfolding(yq_core::specs::Piece::plain_from, yq_core::specs::Plain::plain_at))]
fn plain_from(text: &str, at: usize, place: Place, indent: i64) -> Result<Piece, FaultKind>
    requires { IsCharBoundary text.now at }
    ensures read { ReadsAs (λ p. p) result (spec.plain_from place indent at text.now) }
    ensures fault { IfErr result (λ kind. kind ≡ BadScalar) }
{
    let flow = in_flow(place);
    let rest = text.split_at(at).1;
    if !begins_plain(flow, rest.as_bytes()) {
        return Err(FaultKind::BadScalar);
    }
    let (scalar, _) = split_plain(flow, further_spaces(place, indent), rest);
    Ok(inline_piece(Style::Plain, at, at + scalar.len()))
}
