//! The header of a block scalar (YAML 1.2.2, section 8.1.1).
ghost use Rattle.std.specs.Prelude.{◌≡◌, true, IfErr};
ghost use Rattle.yq_core.specs.Answers.{ReadsAs};
ghost use Rattle.yq_core.specs.Block as spec;
ghost use Rattle.yq_core.specs.BlockReading as reading;

use crate::{FaultKind, Style, is_blank, is_line, is_white, line_len, past_white};

/// How the breaks of a block scalar are read.
#[derive(Clone, Copy, PartialEq, Eq)]
pub enum BlockStyle {
    /// As they are, after `|`.
    Literal,
    /// Folded, after `>`.
    Folded,
}

/// What becomes of the breaks at the end.
#[derive(Clone, Copy, PartialEq, Eq)]
pub enum Chomping {
    /// They go, after `-`.
    Strip,
    /// The last line's stays.
    Clip,
    /// They stay, after `+`.
    Keep,
}

/// The style in front, and what follows it.
#[tactic(auto, unfolding(crate::specs::BlockReading::read_style))]
pub fn read_style(text: &[u8]) -> Result<(BlockStyle, &[u8]), FaultKind>
    ensures read { ReadsAs (λ x. (x.0, x.1.now)) result (reading.read_style text.now) }
    ensures fault { IfErr result (λ kind. spec.is_block_fault kind ≡ true) }
{
    match text {
        [b'|', rest @ ..] => Ok((BlockStyle::Literal, rest)),
        [b'>', rest @ ..] => Ok((BlockStyle::Folded, rest)),
        _ => Err(FaultKind::BadBlockHeader),
    }
}

/// The style among all.
pub fn style_of(style: BlockStyle) -> Style
    ensures { result ≡ spec.as_style style }
{
    match style {
        BlockStyle::Literal => Style::Literal,
        BlockStyle::Folded => Style::Folded,
    }
}

/// The indentation indicator in front, and what follows it.
fn split_digit(text: &[u8]) -> (Option<u8>, &[u8])
    ensures { (result.0, result.1.now) ≡ reading.digit_at text.now }
{
    match text {
        [first, rest @ ..] if (b'1'..=b'9').contains(first) => (Some(*first - b'0'), rest),
        _ => (None, text),
    }
}

/// The chomping indicator in front, and what follows it.
fn split_sign(text: &[u8]) -> (Chomping, &[u8])
    ensures { (result.0, result.1.now) ≡ reading.sign_at text.now }
{
    match text {
        [b'-', rest @ ..] => (Chomping::Strip, rest),
        [b'+', rest @ ..] => (Chomping::Keep, rest),
        _ => (Chomping::Clip, text),
    }
}

/// Both indicators in front, and what follows them.
#[tactic(auto, unfolding(crate::specs::BlockReading::indicators_at))]
pub fn split_indicators(text: &[u8]) -> (Option<u8>, Chomping, &[u8])
    ensures { (result.0, result.1, result.2.now) ≡ reading.values (reading.indicators_at text.now) }
{
    let (digit, rest) = split_digit(text);
    let (chomping, rest) = split_sign(rest);
    if digit.is_some() {
        return (digit, chomping, rest);
    }
    let (digit, rest) = split_digit(rest);
    (digit, chomping, rest)
}

/// Whether empty lines at the end belong to the scalar.
pub fn keeps(chomping: Chomping) -> bool
    ensures { result ≡ spec.keeps chomping }
{
    matches!(chomping, Chomping::Keep)
}

/// Whether a line may come after the indicators.
fn is_tail(line: &[u8]) -> bool
    ensures { result ≡ spec.is_tail line.now }
{
    is_line(line)
        && (is_blank(line)
            || (matches!(line, [first, ..] if is_white(*first))
                && matches!(past_white(line), [b'#', ..])))
}

/// The rest of the header's line with its break, and what follows it.
#[tactic(auto, unfolding(crate::specs::BlockReading::read_header_tail))]
pub fn read_tail(text: &[u8]) -> Result<(&[u8], &[u8]), FaultKind>
    ensures read { ReadsAs (λ x. (x.0.now, x.1.now)) result (reading.read_header_tail text.now) }
    ensures fault { IfErr result (λ kind. spec.is_block_fault kind ≡ true) }
{
    let (line, rest) = text.split_at(line_len(text));
    if is_tail(line) {
        Ok((line, rest))
    } else if is_line(line) {
        Err(FaultKind::BadBlockHeader)
    } else {
        Err(FaultKind::NoFinalBreak)
    }
}
