//! A value in the place of what a key or dash holds, or of a compact collection.
ghost use Rattle.std.specs.Prelude.{◌≡◌, ℕ, List, false};
ghost use Rattle.yq_core.specs.Values.{value_node};
ghost use Rattle.yq_edit_rules.{specs.BlockReading.is_filled as filled, specs.declared.layout.Layout.Layout as LayoutOf};
ghost use Rattle.yq_block_edits.specs.SegmentsPut.{IsExchange, text_held, value_compact, value_over, value_below, filled_held};

use crate::apart;
use crate::pieces::replace_lines;
use std::alloc::{AllocError, Global};
use yq_core::{Place, Value};
use yq_edit_rules::{
    Layout, after_a_space, break_and_lines, compact_text, is_filled, takes_compact, value_text,
};
use yq_places::{EntryMark, Held, LinesIn};
use yq_text::{Halves, Segment, Segments};

/// A text on one line in the place of the head; lines below go.
pub(crate) fn put_inline<'t>(
    alloc: Global,
    held: &Held<'t>,
    text: String,
) -> Result<Segments<'t>, AllocError>
    ensures { (br : List ℕ) → IsExchange result (text_held br held.now text) }
{
    let new = apart(alloc, held.head, text)?;
    let segments = vec![in alloc;
        Segment::Keep(held.before),
        Segment::Keep(Halves::of(held.space)),
        Segment::Put(Halves::of(held.head), new),
        Segment::Keep(Halves::of(held.white)),
        Segment::Keep(Halves::of(held.comment)),
        Segment::Put(Halves::of(held.line_break), String::new(alloc)),
        Segment::Put(held.lines, String::new(alloc)),
        Segment::Keep(Halves::of(held.last)),
        Segment::Keep(held.after),
    ]?;
    Ok(Segments::new(segments))
}

/// A collection in the place of the white space and the head, or of lines below: a compact one begins on
/// the line of a dash.
pub(crate) fn put_filled<'t>(
    alloc: Global,
    layout: &Layout,
    held: &Held<'t>,
    compact: bool,
    value: &Value,
) -> Result<Segments<'t>, AllocError>
    ensures { IsExchange result (filled_held compact layout.now held.now value.now) }
{
    let (new, lines) = if compact {
        (
            compact_text(alloc, layout, held.mark, value)?,
            String::new(alloc),
        )
    } else {
        (
            String::new(alloc),
            break_and_lines(alloc, layout, held.mark, value)?,
        )
    };
    let gone = Halves {
        front: held.space,
        back: held.head,
    };
    let segments = vec![in alloc;
        Segment::Keep(held.before),
        Segment::Put(gone, new),
        Segment::Keep(Halves::of(held.white)),
        Segment::Keep(Halves::of(held.comment)),
        Segment::Put(Halves::of(held.line_break), String::new(alloc)),
        Segment::Put(held.lines, lines),
        Segment::Keep(Halves::of(held.last)),
        Segment::Keep(held.after),
    ]?;
    Ok(Segments::new(segments))
}

/// A value without items and entries on one line in the place of an inline node, or of nothing. It looks
/// the same in each document.
pub(crate) fn text_put<'t>(
    alloc: Global,
    held: &Held<'t>,
    value: &Value,
) -> Result<Segments<'t>, AllocError>
    requires { filled (value_node value.now) ≡ false }
    ensures { (l : LayoutOf) → IsExchange result (value_over l held.now value.now) }
{
    let text = value_text(alloc, Place::Block, held.head.as_bytes(), value)?;
    put_inline(alloc, held, text)
}

/// A value in the place of an inline node, or of nothing.
pub(crate) fn beside_put<'t>(
    alloc: Global,
    layout: &Layout,
    held: &Held<'t>,
    value: &Value,
) -> Result<Segments<'t>, AllocError>
    ensures { IsExchange result (value_over layout.now held.now value.now) }
{
    if !is_filled(value) {
        return text_put(alloc, held, value);
    }
    put_filled(alloc, layout, held, takes_compact(held.mark), value)
}

/// A value in the place of a block collection on lines below.
pub(crate) fn under_put<'t>(
    alloc: Global,
    layout: &Layout,
    held: &Held<'t>,
    value: &Value,
) -> Result<Segments<'t>, AllocError>
    ensures { IsExchange result (value_below layout.now held.now value.now) }
{
    if is_filled(value) {
        return put_filled(alloc, layout, held, false, value);
    }
    let text = value_text(alloc, Place::Block, b"", value)?;
    put_inline(alloc, held, text)
}

/// A value after a dash, in the place of the lines of a compact collection.
pub(crate) fn compact_put<'t>(
    alloc: Global,
    layout: &Layout,
    mark: EntryMark,
    compact: &LinesIn<'t>,
    value: &Value,
) -> Result<Segments<'t>, AllocError>
    ensures { IsExchange result (value_compact layout.now mark compact.now value.now) }
{
    let text = if !is_filled(value) {
        let text = value_text(alloc, Place::Block, b"", value)?;
        after_a_space(alloc, &text)?
    } else if takes_compact(mark) {
        compact_text(alloc, layout, mark, value)?
    } else {
        break_and_lines(alloc, layout, mark, value)?
    };
    replace_lines(alloc, compact, text)
}
