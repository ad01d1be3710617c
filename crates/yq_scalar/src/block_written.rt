//! A text written as a literal block scalar.
ghost use Rattle.std.{specs.Prelude.{◌≡◌, ◌-◌, ◌^◌, length, min, IfOk}, specs.String.string_bytes};
ghost use Rattle.yq_core.{specs.Text.text_lines, specs.Strings.AddsText};
ghost use Rattle.yq_scalar.specs.WrittenLines.{indented_line, indented_lines};
ghost use Rattle.yq_core.specs.BlockWritten as spec;

use std::alloc::{AllocError, Global};
use yq_core::{Break, split_at_break, split_line};
use yq_scalar_reader::push_spaces;

/// The bytes of a break.
pub fn break_text(br: Break) -> &'static str
    ensures { result.now ≡ spec.break_text br }
{
    match br {
        Break::Lf => "\n",
        Break::CrLf => "\r\n",
    }
}

/// How long a line of that text is as it is written, in bytes.
fn written_line_len(indent: usize, br: Break, text: &str) -> usize
    ensures { result ≡ min (length (indented_line indent br text.now)) (2 ^ 64 - 1) }
{
    if text.is_empty() {
        break_text(br).len()
    } else {
        indent
            .saturating_add(text.len())
            .saturating_add(break_text(br).len())
    }
}

/// How long the lines of a text are as they are written, in bytes, or 2^64 - 1 where they are longer.
fn written_len(indent: usize, br: Break, text: &str) -> usize
    ensures { result ≡ min (length (indented_lines indent br text.now)) (2 ^ 64 - 1) }
{
    let mut len = 0usize;
    let mut rest = text;
    'each: while !rest.is_empty() {
        let (line, after) = split_line(rest);
        len = len.saturating_add(written_line_len(indent, br, split_at_break(line).0));
        rest = after;
    }
    len
}

/// Adds a line of that text.
fn push_written(out: &mut String, indent: usize, br: Break, text: &str) -> Result<(), AllocError>
    ensures { AddsText result out.old out.new (indented_line indent br text.now) }
{
    if !text.is_empty() {
        push_spaces(out, indent)?;
        out.push_str(text)?;
    }
    out.push_str(break_text(br))
}

/// Adds the lines of a text.
fn push_lines(out: &mut String, indent: usize, br: Break, text: &str) -> Result<(), AllocError>
    ensures { AddsText result out.old out.new (indented_lines indent br text.now) }
{
    let mut rest = text;
    'each: while !rest.is_empty() {
        let (line, after) = split_line(rest);
        push_written(out, indent, br, split_at_break(line).0)?;
        rest = after;
    }
    Ok(())
}

/// Whether the text is empty or ends in LF.
fn ends_in_feed(text: &[u8]) -> bool
    ensures { result ≡ spec.ends_in_feed text.now }
{
    matches!(text, []) || text.ends_with(b"\n")
}

fn header_text(closed: bool) -> &'static str
    ensures { result.now ≡ spec.header_text (spec.chomping_by closed) }
{
    if closed { "|" } else { "|-" }
}

/// The header and the raw lines of a literal block scalar whose text is indented by so many columns:
/// each line of the text, after the indentation unless it is empty, with this break.
///
/// Memory is taken once.
pub fn write_block(
    alloc: Global,
    text: &str,
    indent: usize,
    br: Break,
) -> Result<(&'static str, String), AllocError>
    ensures header { IfOk result (λ r. r.0.now ≡ spec.header_text
        (spec.chomping_of (text_lines text.now))) }
    ensures raw { IfOk result (λ r. string_bytes r.1 ≡ indented_lines indent br text.now) }
{
    let mut raw = String::with_capacity(alloc, written_len(indent, br, text))?;
    match push_lines(&mut raw, indent, br, text) {
        Ok(()) => Ok((header_text(ends_in_feed(text.as_bytes())), raw)),
        Err(e) => Err(e),
    }
}
