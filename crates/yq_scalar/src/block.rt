//! The block scalar at an offset of a text (YAML 1.2.2, section 8.1).
ghost use Rattle.std.{specs.Prelude.{◌≡◌, ◌<◌, ◌≤◌, ◌+◌, ◌^◌, length, drop, true, IfErr, IfOk, Ok}, specs.Str.IsCharBoundary};
ghost use Rattle.yq_core.{specs.Answers.ReadsAs, specs.ScalarPiece.IsReadPiece, specs.Piece.deeper, specs.Text.text_lines};
ghost use Rattle.yq_core.specs.declared.piece.Piece.{Piece};
ghost use Rattle.yq_core.specs.Block as spec;
ghost use Rattle.yq_core.specs.BlockReading as reading;

use yq_core::block_header::{keeps, read_style, read_tail, split_indicators, style_of};
use yq_core::block_lines::{TextIndent, detect_indent, raw_len};
use yq_core::{FaultKind, Piece};

/// One column more than the indentation of a parent.
fn least_indent(parent: i64) -> usize
    ensures value { result ≡ deeper parent }
    ensures fits { result ≤ 2 ^ 63 }
{
    if parent < 0 { 0 } else { parent as usize + 1 }
}

/// The indentation of the text, by the digit or by the lines.
#[tactic(auto, unfolding(yq_core::specs::BlockReading::indent_at))]
fn read_indent(least: usize, digit: Option<u8>, text: &[u8]) -> Result<TextIndent, FaultKind>
    requires { least ≤ 2 ^ 63 }
    ensures read { ReadsAs (λ f. f) result (reading.indent_at least digit (text_lines text.now)) }
    ensures fault { IfErr result (λ kind. spec.is_block_fault kind ≡ true) }
{
    match digit {
        Some(digit) => Ok(TextIndent {
            columns: (least + usize::from(digit)).saturating_sub(1),
            known: true,
        }),
        None => detect_indent(least, text),
    }
}

/// The block scalar in front of a text that begins at an offset.
#[tactic(auto, unfolding(yq_core::specs::BlockReading::block_at, yq_core::specs::BlockReading::block_after))]
fn read_at(text: &[u8], start: usize, least: usize) -> Result<Piece, FaultKind>
    requires small { least ≤ 2 ^ 63 }
    requires fits { start + length text.now < 2 ^ 64 }
    ensures read { ReadsAs (λ p. p) result (reading.read_block_piece start least text.now) }
    ensures fault { IfErr result (λ kind. spec.is_block_fault kind ≡ true) }
{
    let (style, rest) = read_style(text)?;
    let (digit, chomping, rest) = split_indicators(rest);
    let head_end = start + (text.len() - rest.len());
    let (tail, raw) = read_tail(rest)?;
    let indent = read_indent(least, digit, raw)?;
    let keep = keeps(chomping);
    let len = raw_len(keep, indent, raw)?;
    let raw_start = head_end + tail.len();
    Ok(Piece {
        style: style_of(style),
        start,
        head_end,
        raw_start,
        end: raw_start + len,
        indent: indent.columns,
        keep,
    })
}

/// The block scalar that begins at an offset of a text, in bytes (YAML 1.2.2, section 8.1). `parent` is
/// the indentation of its parent, in columns, or -1 if it has none.
///
/// Refused exactly where none begins there, or where the text after it may not follow: as
/// [`FaultKind::BadBlockHeader`] at an impossible header, as [`FaultKind::BadIndent`] where a blank
/// line has more spaces than the first text line is indented by, as [`FaultKind::TabIndent`] where a
/// tab is in the indentation of a line, and as [`FaultKind::NoFinalBreak`] where the text ends in a
/// line of the scalar. Takes no memory.
pub fn read_block(text: &str, at: usize, parent: i64) -> Result<Piece, FaultKind>
    requires { IsCharBoundary text.now at }
    ensures exact { ReadsAs (λ p. p) result (reading.block_from parent at text.now) }
    ensures found { IfOk result (spec.IsBlockPiece parent at text.now) }
    ensures only { (p : Piece) → spec.IsBlockPiece parent at text.now p → result ≡ Ok p }
    ensures is_piece { IfOk result (IsReadPiece text.now) }
    ensures fault { IfErr result (λ kind. spec.is_block_fault kind ≡ true) }
{
    read_at(text.split_at(at).1.as_bytes(), at, least_indent(parent))
}
