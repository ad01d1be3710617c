//! Pieces of lines in block style.
ghost use Rattle.std.{specs.Prelude.{◌≡◌, ◌+◌, ◌++◌, IfOk, OnOk, string_bytes}, specs.Str.IsUtf8};
ghost use Rattle.yq_core.specs.Strings.{AddsText};
ghost use Rattle.yq_edit_rules.specs.BlockReading as spec;
ghost use Rattle.yq_edit_rules.specs.BlockRows as rows;

use crate::layout::Layout;
use std::alloc::{AllocError, Global};
use yq_core::{Place, Scalar};
use yq_flow_edits::push_scalar;
use yq_scalar::block_written::break_text;
use yq_scalar_reader::push_spaces;

/// A column by so many deeper. Room is made for the spaces of a line that begins there.
///
/// # Errors
/// [`AllocError`] where memory is refused: so a sum that has no place in a `usize` is never made.
pub(crate) fn deeper_column(
    out: &mut String,
    column: usize,
    step: usize,
) -> Result<usize, AllocError>
    ensures sum { IfOk result (λ n. n ≡ column + step) }
    ensures text { string_bytes out.new ≡ string_bytes out.old }
{
    out.reserve(column)?;
    out.reserve(step)?;
    Ok(column + step)
}

/// Begins a line at a column.
pub(crate) fn push_line(out: &mut String, layout: &Layout, column: usize) -> Result<(), AllocError>
    ensures { AddsText result out.old out.new (spec.break_and_indent layout.now column) }
{
    out.push_str(break_text(layout.br))?;
    push_spaces(out, column)
}

/// Adds a key, plain if it can be, else double-quoted.
fn push_key(alloc: Global, out: &mut String, key: &str) -> Result<(), AllocError>
    ensures text { OnOk result (string_bytes out.new ≡ string_bytes out.old ++
        rows.block_key key.now) }
    ensures valid { IfOk result (λ x. IsUtf8 key.now) }
{
    let scalar = Scalar::string(String::from_str(alloc, key)?);
    push_scalar(alloc, out, &scalar, Place::BlockKey)
}

/// Adds a key with its `:`, and a space, or begins the line below it.
pub(crate) fn push_front(
    alloc: Global,
    out: &mut String,
    layout: &Layout,
    below: usize,
    key: &str,
    filled: bool,
) -> Result<(), AllocError>
    ensures text { AddsText result out.old out.new (spec.block_front layout.now below key.now filled) }
    ensures valid { IfOk result (λ x. IsUtf8 key.now) }
{
    push_key(alloc, out, key)?;
    if filled {
        out.push_str(":")?;
        push_line(out, layout, below)
    } else {
        out.push_str(": ")
    }
}
