//! What a block scalar means (YAML 1.2.2, sections 8.1.1.2, 8.1.2 and 8.1.3).
ghost use Rattle.std.specs.Prelude.{◌≡◌, ◌==◌, ◌&&◌, not, ◌++◌, ℤ, length};
ghost use Rattle.yq_core.{specs.Block.{IsBlockPiece, IsBlockScalar}, specs.Text.{front, is_white, text_lines}};
ghost use Rattle.yq_core.{specs.declared.block_types.LineBefore.TheVariants.Nothing, specs.Strings.{AddsText, GivesText}};
ghost use Rattle.yq_core.specs.BlockContent as spec;
ghost use Rattle.yq_core.specs.BlockReading as reading;

use std::alloc::{AllocError, Global};
use yq_core::block_header::{BlockStyle, Chomping, split_indicators};
use yq_core::block_lines::{TextIndent, detect_indent};
use yq_core::{LineBefore, Piece, Style, is_white, spaces_len, split_at_break, split_line};
use yq_scalar_reader::push_breaks;

/// The line without its indentation.
fn unindented(indent: TextIndent, line: &str) -> &str
    ensures { result.now ≡ spec.unindented indent line.now }
{
    let spaces = spaces_len(line.as_bytes());
    let n = if indent.known {
        usize::min(indent.columns, spaces)
    } else {
        spaces
    };
    line.split_at(n).1
}

/// The line without its indentation and its break.
fn part_of(indent: TextIndent, line: &str) -> &str
    ensures { result.now ≡ spec.part_of indent line.now }
{
    split_at_break(unindented(indent, line)).0
}

/// Whether white space is in front.
fn begins_white(text: &[u8]) -> bool
    ensures { result ≡ front is_white text.now }
{
    matches!(text, [first, ..] if is_white(*first))
}

/// Adds what is between a line and the one before it.
fn push_joint(
    out: &mut String,
    before: LineBefore,
    white: bool,
    empty: usize,
) -> Result<(), AllocError>
    ensures { AddsText result out.old out.new (spec.joint before white empty) }
{
    match before {
        LineBefore::Nothing => push_breaks(out, empty),
        LineBefore::Text if !white => {
            if empty == 0 {
                out.push_str(" ")
            } else {
                push_breaks(out, empty)
            }
        }
        _ => {
            out.push_str("\n")?;
            push_breaks(out, empty)
        }
    }
}

/// Adds what comes after the last line.
fn push_ending(
    out: &mut String,
    chomping: Chomping,
    before: LineBefore,
    empty: usize,
) -> Result<(), AllocError>
    ensures { AddsText result out.old out.new (spec.chomped_end chomping before empty) }
{
    match (chomping, before) {
        (Chomping::Strip, _) | (Chomping::Clip, LineBefore::Nothing) => Ok(()),
        (Chomping::Clip, _) => out.push_str("\n"),
        (Chomping::Keep, LineBefore::Nothing) => push_breaks(out, empty),
        (Chomping::Keep, _) => {
            out.push_str("\n")?;
            push_breaks(out, empty)
        }
    }
}

/// Adds a line's text, and perhaps an LF.
fn push_line(out: &mut String, text: &str, broken: bool) -> Result<(), AllocError>
    ensures { AddsText result out.old out.new (text.now ++ spec.optional_break broken) }
{
    out.push_str(text)?;
    if broken { out.push_str("\n") } else { Ok(()) }
}

/// Whether an LF comes after a line's text.
fn goes_on(strip: bool, after: &str) -> bool
    ensures { result ≡ not (strip && length after.now == 0) }
{
    !(strip && after.is_empty())
}

/// Adds what raw lines in literal style mean.
fn push_literal(
    out: &mut String,
    strip: bool,
    indent: TextIndent,
    raw: &str,
) -> Result<(), AllocError>
    ensures { AddsText result out.old out.new (spec.literal strip indent (text_lines raw.now)) }
{
    let mut rest = raw;
    'each: while !rest.is_empty() {
        let (line, after) = split_line(rest);
        push_line(out, part_of(indent, line), goes_on(strip, after))?;
        rest = after;
    }
    Ok(())
}

/// What a line of text is for the one after it.
fn kind_of(text: &[u8]) -> LineBefore
    ensures { result ≡ spec.is_spaced_line text.now }
{
    if begins_white(text) {
        LineBefore::Spaced
    } else {
        LineBefore::Text
    }
}

/// Adds what raw lines in folded style mean.
fn push_folded(
    out: &mut String,
    chomping: Chomping,
    indent: TextIndent,
    raw: &str,
) -> Result<(), AllocError>
    ensures { AddsText result out.old out.new
        (spec.folded chomping indent Nothing 0 (text_lines raw.now)) }
{
    let mut before = LineBefore::Nothing;
    let mut empty = 0usize;
    let mut rest = raw;
    'each: while !rest.is_empty() {
        let (line, after) = split_line(rest);
        let text = part_of(indent, line);
        if text.is_empty() {
            empty += 1;
        } else {
            push_joint(out, before, begins_white(text.as_bytes()), empty)?;
            out.push_str(text)?;
            before = kind_of(text.as_bytes());
            empty = 0;
        }
        rest = after;
    }
    push_ending(out, chomping, before, empty)
}

/// Whether the last break is stripped.
fn strips(chomping: Chomping) -> bool
    ensures { result ≡ spec.strips chomping }
{
    matches!(chomping, Chomping::Strip)
}

/// What raw lines mean, which is no longer than they are.
fn content_of(
    alloc: Global,
    style: BlockStyle,
    chomping: Chomping,
    indent: TextIndent,
    raw: &str,
) -> Result<String, AllocError>
    ensures { GivesText result
        (spec.block_lines_content style chomping indent (text_lines raw.now)) }
{
    let mut out = String::with_capacity(alloc, raw.len())?;
    let added = match style {
        BlockStyle::Literal => push_literal(&mut out, strips(chomping), indent, raw),
        BlockStyle::Folded => push_folded(&mut out, chomping, indent, raw),
    };
    match added {
        Ok(()) => Ok(out),
        Err(e) => Err(e),
    }
}

/// The style of a block scalar's piece.
fn block_style(style: Style) -> BlockStyle
    ensures { result ≡ reading.block_style style }
{
    match style {
        Style::Folded => BlockStyle::Folded,
        _ => BlockStyle::Literal,
    }
}

/// The indentation of raw lines whose text is indented by so many columns.
#[tactic(auto, unfolding(yq_core::specs::BlockReading::indent_of))]
fn indent_of(digit: Option<u8>, columns: usize, raw: &[u8]) -> TextIndent
    ensures { result ≡ reading.indent_of digit columns (text_lines raw.now) }
{
    let known = TextIndent {
        columns,
        known: true,
    };
    if digit.is_some() {
        return known;
    }
    match detect_indent(columns, raw) {
        Ok(indent) => indent,
        Err(_) => known,
    }
}

/// What the block scalar at a piece of a text means: its lines without their indentation, each
/// break as an LF or folded, the breaks at the end as its header asks.
pub(crate) fn block_content(alloc: Global, text: &str, piece: &Piece) -> Result<String, AllocError>
    requires { IsBlockScalar text.now piece.now }
    ensures exact { GivesText result (reading.block_piece_content text.now piece.now) }
    ensures found { (n : ℤ) (p : IsBlockPiece n piece.now.start text.now piece.now) →
        GivesText result (spec.block_content p.block) }
{
    let (digit, chomping, _) = split_indicators(text.as_bytes().split_at(piece.start + 1).1);
    let raw = &text[piece.raw_start..piece.end];
    let indent = indent_of(digit, piece.indent, raw.as_bytes());
    content_of(alloc, block_style(piece.style), chomping, indent, raw)
}
