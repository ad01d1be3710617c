//! A gap that ends up after a block scalar.
ghost use Rattle.std.specs.Prelude.{◌≡◌, [], if◌then◌else◌};
ghost use Rattle.yq_core.specs.Strings.{AddsText, GivesText};
ghost use Rattle.yq_scalar.specs.RepairedGaps.{repaired_gap};
ghost use Rattle.yq_core.specs.BlockRepair as spec;

use std::alloc::{AllocError, Global};
use yq_core::{Piece, ends_line, is_blank, spaces_len, split_line, split_white, without_spaces};
use yq_scalar_reader::push_spaces;

/// A line of spaces alone, so many at most.
pub fn is_short(indent: usize, line: &[u8]) -> bool
    ensures { result ≡ spec.is_short indent line.now }
{
    ends_line(without_spaces(line)) && spaces_len(line) <= indent
}

/// A line that begins with fewer spaces, and no tab after them.
pub fn is_outside(indent: usize, line: &[u8]) -> bool
    ensures { result ≡ spec.is_outdented_comment indent line.now }
{
    spaces_len(line) < indent && !matches!(without_spaces(line), [b'\t', ..])
}

/// A blank line, emptied if it is not short.
fn repaired_blank(indent: usize, line: &str) -> &str
    ensures { result.now ≡ spec.repaired_blank indent line.now }
{
    if is_short(indent, line.as_bytes()) {
        line
    } else {
        split_white(line).1
    }
}

/// Adds a blank line, unless the scalar keeps empty lines.
fn push_blank(out: &mut String, keep: bool, indent: usize, line: &str) -> Result<(), AllocError>
    ensures { AddsText result out.old out.new
        (if keep then [] else spec.repaired_blank indent line.now) }
{
    if keep {
        return Ok(());
    }
    out.push_str(repaired_blank(indent, line))
}

/// Adds a comment line, at this column if it is not outside the indentation.
fn push_comment(
    out: &mut String,
    indent: usize,
    column: usize,
    line: &str,
) -> Result<(), AllocError>
    ensures { AddsText result out.old out.new (spec.repaired_comment indent column line.now) }
{
    if is_outside(indent, line.as_bytes()) {
        return out.push_str(line);
    }
    push_spaces(out, column)?;
    out.push_str(split_white(line).1)
}

/// Adds a repaired gap.
fn push_gap(
    out: &mut String,
    keep: bool,
    indent: usize,
    column: usize,
    gap: &str,
) -> Result<(), AllocError>
    ensures { AddsText result out.old out.new (repaired_gap keep indent column gap.now) }
{
    let mut rest = gap;
    'each: while !rest.is_empty() {
        let (line, after) = split_line(rest);
        if !is_blank(line.as_bytes()) {
            push_comment(out, indent, column, line)?;
            return out.push_str(after);
        }
        push_blank(out, keep, indent, line)?;
        rest = after;
    }
    Ok(())
}

/// The gap that is left after the block scalar of a piece, changed so that it may follow it. Its blank
/// lines are removed if the scalar keeps empty lines (`+`); else those that the scalar could not have
/// as empty lines are emptied. Its first comment line is moved to `column` if it would be text of the
/// scalar.
///
/// Takes memory once.
pub fn repair(alloc: Global, scalar: &Piece, column: usize, gap: &str) -> Result<String, AllocError>
    ensures exact { GivesText result
        (repaired_gap scalar.now.keep scalar.now.indent column gap.now) }
{
    let mut out = String::with_capacity(alloc, gap.len().saturating_add(column))?;
    match push_gap(&mut out, scalar.keep, scalar.indent, column, gap) {
        Ok(()) => Ok(out),
        Err(e) => Err(e),
    }
}
