//! How a value is written at a place.
ghost use Rattle.std.specs.Prelude.{◌≡◌, ◌∷◌, ◌++◌, IfOk, string_bytes};
ghost use Rattle.yq_core.{specs.Values.value_node, specs.BlockWritten.break_text, specs.Strings.{AddsText, GivesText}};
ghost use Rattle.yq_places.specs.PlacementViews.{held_mark_view};
ghost use Rattle.yq_edit_rules.specs.ValuesWritten.{value_column, lines_at_mark, compact_block};
ghost use Rattle.yq_edit_rules.specs.WrittenValues as spec;

use crate::pieces::deeper_column;
use crate::style::style_in;
use crate::{Layout, indent_step, push_block};
use std::alloc::{AllocError, Global};
use yq_core::{Place, Value};
use yq_flow_edits::write_inline;
use yq_inline::style_of;
use yq_places::EntryMark;
use yq_scalar::block_written::break_text;
use yq_scalar::write_scalar;
use yq_scalar_reader::push_spaces;

/// A value on one line, in the place of a text.
///
/// # Errors
/// [`AllocError`] where memory is refused.
pub fn value_text(
    alloc: Global,
    place: Place,
    old: &[u8],
    value: &Value,
) -> Result<String, AllocError>
    ensures { IfOk result (λ s. string_bytes s ≡
        spec.value_text place old.now (value_node value.now)) }
{
    let Value::Scalar(scalar) = value else {
        return write_inline(alloc, value);
    };
    let style = style_in(place, scalar, style_of(old));
    write_scalar(alloc, scalar, style, place)
}

/// A text after a space.
pub fn after_a_space(alloc: Global, text: &str) -> Result<String, AllocError>
    ensures { IfOk result (λ s. string_bytes s ≡ 32 ∷ text.now) }
{
    let mut out = String::new(alloc);
    out.push_str(" ")?;
    out.push_str(text)?;
    Ok(out)
}

/// Whether a collection may begin on the line of a key or dash.
pub fn takes_compact(mark: EntryMark) -> bool
    ensures { result ≡ spec.takes_compact (held_mark_view mark) }
{
    !(mark.keyed || mark.noted)
}

/// The column of a collection below a key or dash. Room is made for the spaces of its lines.
///
/// # Errors
/// [`AllocError`] where memory is refused.
fn column_under(
    out: &mut String,
    layout: &Layout,
    mark: EntryMark,
    value: &Value,
) -> Result<usize, AllocError>
    ensures column { IfOk result (λ n. n ≡ value_column layout.now mark value.now) }
    ensures text { string_bytes out.new ≡ string_bytes out.old }
{
    let step = if mark.keyed {
        indent_step(layout, value)
    } else {
        2
    };
    deeper_column(out, mark.column, step)
}

/// A space, and a collection that begins on the line of a dash.
pub fn compact_text(
    alloc: Global,
    layout: &Layout,
    mark: EntryMark,
    value: &Value,
) -> Result<String, AllocError>
    ensures { GivesText result (compact_block layout.now mark value.now) }
{
    let mut text = String::new(alloc);
    text.push_str(" ")?;
    let column = deeper_column(&mut text, mark.column, 2)?;
    push_block(alloc, &mut text, layout, column, value)?;
    Ok(text)
}

/// Adds a collection on lines below a key or dash, up to the last break.
fn push_lines_under(
    alloc: Global,
    out: &mut String,
    layout: &Layout,
    mark: EntryMark,
    value: &Value,
) -> Result<(), AllocError>
    ensures { AddsText result out.old out.new (lines_at_mark layout.now mark value.now) }
{
    let column = column_under(out, layout, mark, value)?;
    push_spaces(out, column)?;
    push_block(alloc, out, layout, column, value)
}

/// A break, and a collection on lines below a key or dash.
pub fn break_and_lines(
    alloc: Global,
    layout: &Layout,
    mark: EntryMark,
    value: &Value,
) -> Result<String, AllocError>
    ensures { GivesText result (break_text layout.now.br ++ lines_at_mark layout.now mark value.now) }
{
    let mut text = String::new(alloc);
    text.push_str(break_text(layout.br))?;
    push_lines_under(alloc, &mut text, layout, mark, value)?;
    Ok(text)
}

/// A collection on lines below a key or dash, and a break.
pub fn lines_and_break(
    alloc: Global,
    layout: &Layout,
    mark: EntryMark,
    value: &Value,
) -> Result<String, AllocError>
    ensures { GivesText result (lines_at_mark layout.now mark value.now ++ break_text layout.now.br) }
{
    let mut text = String::new(alloc);
    push_lines_under(alloc, &mut text, layout, mark, value)?;
    text.push_str(break_text(layout.br))?;
    Ok(text)
}
