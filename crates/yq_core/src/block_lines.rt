//! The lines of a block scalar, and what may come after them (YAML 1.2.2, sections 8.1.1 and 8.1.2).
ghost use Rattle.std.specs.Prelude.{◌≡◌, true, IfErr};
ghost use Rattle.yq_core.{specs.Answers.ReadsAs, specs.Text.text_lines};
ghost use Rattle.yq_core.specs.Block as spec;
ghost use Rattle.yq_core.specs.BlockReading as reading;

use crate::{FaultKind, ends_line, is_blank, is_line, line_len, spaces_len, without_spaces};

/// The indentation of a block scalar's text, in columns, and whether a digit or a text line gives it.
#[derive(Clone, Copy, PartialEq, Eq)]
pub struct TextIndent {
    pub columns: usize,
    pub known: bool,
}

/// A line of spaces alone, no more than the indentation has.
fn is_empty_line(indent: TextIndent, line: &[u8]) -> bool
    ensures { result ≡ spec.is_empty_line indent line.now }
{
    ends_line(without_spaces(line)) && (!indent.known || spaces_len(line) <= indent.columns)
}

/// An empty line, with a break where it may belong to the scalar.
fn is_empty_at(keep: bool, indent: TextIndent, line: &[u8]) -> bool
    ensures { result ≡ reading.is_empty_at keep indent line.now }
{
    is_empty_line(indent, line) && (!keep || is_line(line))
}

/// A line with a character after the indentation.
fn is_text_line(indent: TextIndent, line: &[u8]) -> bool
    ensures { result ≡ spec.is_text_line indent line.now }
{
    !is_empty_line(indent, line) && indent.known && indent.columns <= spaces_len(line)
}

/// A text line with its break.
fn is_text_at(indent: TextIndent, line: &[u8]) -> bool
    ensures { result ≡ reading.is_text_at indent line.now }
{
    is_text_line(indent, line) && is_line(line)
}

/// A line with a character, no tab, after fewer spaces than the indentation has.
fn is_less_indented(indent: TextIndent, line: &[u8]) -> bool
    ensures { result ≡ spec.is_less_indented indent line.now }
{
    let after = without_spaces(line);
    !ends_line(after) && spaces_len(line) < indent.columns && !matches!(after, [b'\t', ..])
}

/// The indentation that the lines give where no digit does.
#[tactic(auto)]
pub fn detect_indent(least: usize, text: &[u8]) -> Result<TextIndent, FaultKind>
    ensures read { ReadsAs (λ f. f) result (reading.detected_at least 0 (text_lines text.now)) }
    ensures fault { IfErr result (λ kind. spec.is_block_fault kind ≡ true) }
{
    let mut most = 0;
    let mut rest = text;
    'each: while !rest.is_empty() {
        let (line, after) = rest.split_at(line_len(rest));
        let columns = spaces_len(line);
        if !is_blank(line) {
            if columns < least {
                return Ok(TextIndent {
                    columns: least,
                    known: false,
                });
            }
            if columns < most {
                return Err(FaultKind::BadIndent);
            }
            return Ok(TextIndent {
                columns,
                known: true,
            });
        }
        if most < columns {
            most = columns;
        }
        rest = after;
    }
    Ok(TextIndent {
        columns: least,
        known: false,
    })
}

/// How long the raw lines in front are, in bytes.
#[tactic(auto)]
pub fn raw_len(keep: bool, indent: TextIndent, text: &[u8]) -> Result<usize, FaultKind>
    ensures read { ReadsAs (λ n. n) result (reading.len_at keep indent text.now) }
    ensures fault { IfErr result (λ kind. spec.is_block_fault kind ≡ true) }
{
    let mut within = 0;
    let mut scanned = 0;
    let mut rest = text;
    'each: while !rest.is_empty() {
        let n = line_len(rest);
        let (line, after) = rest.split_at(n);
        if is_empty_at(keep, indent, line) {
            scanned += n;
            if keep {
                within = scanned;
            }
        } else if is_text_at(indent, line) {
            scanned += n;
            within = scanned;
        } else if is_less_indented(indent, line) {
            return Ok(within);
        } else {
            return Err(if is_line(line) {
                FaultKind::TabIndent
            } else {
                FaultKind::NoFinalBreak
            });
        }
        rest = after;
    }
    Ok(within)
}
