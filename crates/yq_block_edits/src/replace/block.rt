//! A value in the place of a block scalar.
ghost use Rattle.std.specs.Prelude.{◌≡◌, true};
ghost use Rattle.yq_core.specs.Writable.{is_string};
ghost use Rattle.yq_places.specs.PlacementViews.{held_view};
ghost use Rattle.yq_block_edits.specs.SegmentsPut.{IsExchange, literal_held, string_held, value_held, lines_held, block_held};
ghost use Rattle.yq_edit_rules.specs.ReplaceEdits as spec;

use crate::replace::held::{put_filled, put_inline};
use std::alloc::{AllocError, Global};
use yq_core::{Kind, Place, Scalar, Style, Value};
use yq_edit_rules::{Layout, is_filled, lines_and_break, takes_compact, value_text};
use yq_places::Held;
use yq_scalar::{write_block, write_scalar};
use yq_scalar_reader::can_write;
use yq_text::{Halves, Segment, Segments};

/// The break of the line of a key or dash, and that of the last line, where lines are below it.
fn line_breaks<'t>(held: &Held<'t>) -> (&'t str, &'t str)
    ensures line { result.0.now ≡ spec.line_break (held_view held.now) }
    ensures last { result.1.now ≡ spec.raw_last (held_view held.now) }
{
    if held.line_break.is_empty() {
        (held.last, "")
    } else {
        (held.line_break, held.last)
    }
}

/// A text as a literal block scalar: another header and other lines.
fn literal_put<'t>(
    alloc: Global,
    layout: &Layout,
    held: &Held<'t>,
    indent: usize,
    text: &str,
) -> Result<Segments<'t>, AllocError>
    ensures { IsExchange result (literal_held layout.now held.now indent text.now) }
{
    let (header, raw) = write_block(alloc, text, indent, layout.br)?;
    let (line_break, last) = line_breaks(held);
    let segments = vec![in alloc;
        Segment::Keep(held.before),
        Segment::Keep(Halves::of(held.space)),
        Segment::Put(Halves::of(held.head), String::from_str(alloc, header)?),
        Segment::Keep(Halves::of(held.white)),
        Segment::Keep(Halves::of(held.comment)),
        Segment::Keep(Halves::of(line_break)),
        Segment::Put(held.lines, String::new(alloc)),
        Segment::Put(Halves::of(last), raw),
        Segment::Keep(held.after),
    ]?;
    Ok(Segments::new(segments))
}

/// A collection on lines in the place of those of a block scalar, without its header.
fn lines_put<'t>(
    alloc: Global,
    layout: &Layout,
    held: &Held<'t>,
    value: &Value,
) -> Result<Segments<'t>, AllocError>
    ensures { IsExchange result (lines_held layout.now held.now value.now) }
{
    let raw = lines_and_break(alloc, layout, held.mark, value)?;
    let (line_break, last) = line_breaks(held);
    let segments = vec![in alloc;
        Segment::Keep(held.before),
        Segment::Put(Halves::of(held.space), String::new(alloc)),
        Segment::Put(Halves::of(held.head), String::new(alloc)),
        Segment::Keep(Halves::of(held.white)),
        Segment::Keep(Halves::of(held.comment)),
        Segment::Keep(Halves::of(line_break)),
        Segment::Put(held.lines, String::new(alloc)),
        Segment::Put(Halves::of(last), raw),
        Segment::Keep(held.after),
    ]?;
    Ok(Segments::new(segments))
}

/// A string in the place of a block scalar with a text line: a literal one, if it can be, else in
/// double quotes.
fn string_put<'t>(
    alloc: Global,
    layout: &Layout,
    held: &Held<'t>,
    indent: usize,
    scalar: &Scalar,
) -> Result<Segments<'t>, AllocError>
    requires { is_string scalar.now.kind ≡ true }
    ensures { IsExchange result (string_held layout.now held.now indent scalar.now) }
{
    if can_write(scalar, Style::Literal, Place::Block) {
        return literal_put(alloc, layout, held, indent, scalar.text());
    }
    let text = write_scalar(alloc, scalar, Style::Double, Place::Block)?;
    put_inline(alloc, held, text)
}

/// A value in the place of a block scalar: a collection on lines in the place of its lines, or as
/// in the place of what a key or dash holds.
fn block_put<'t>(
    alloc: Global,
    layout: &Layout,
    held: &Held<'t>,
    value: &Value,
) -> Result<Segments<'t>, AllocError>
    ensures { IsExchange result (block_held layout.now held.now value.now) }
{
    if !is_filled(value) {
        let text = value_text(alloc, Place::Block, b"", value)?;
        return put_inline(alloc, held, text);
    }
    if takes_compact(held.mark) {
        put_filled(alloc, layout, held, true, value)
    } else {
        lines_put(alloc, layout, held, value)
    }
}

/// A value in the place of a block scalar that is indented so far, with a text line or without.
pub(crate) fn block_scalar_put<'t>(
    alloc: Global,
    has_text: bool,
    layout: &Layout,
    held: &Held<'t>,
    indent: usize,
    value: &Value,
) -> Result<Segments<'t>, AllocError>
    ensures { IsExchange result (value_held has_text layout.now held.now indent value.now) }
{
    if let Value::Scalar(scalar) = value {
        if has_text && scalar.kind() == Kind::Text {
            return string_put(alloc, layout, held, indent, scalar);
        }
    }
    block_put(alloc, layout, held, value)
}
