//! Replace, outside flow collections: a value in the place of what is there.
ghost use Rattle.std.{specs.List.list_any, specs.Prelude.{◌≡◌, IfOk, not}};
ghost use Rattle.yq_core.specs.Text.{is_feed};
ghost use Rattle.yq_places.specs.PlacementViews.{placement_view};
ghost use Rattle.yq_edit_rules.specs.Answers.{GivesSegments};
ghost use Rattle.yq_block_edits.{specs.SegmentsPut.{IsExchange, value_there, ArePutAlike, value_at_path}, specs.TextsPut.has_text_at};
ghost use Rattle.yq_edit_rules.specs.Layouts as layouts;

mod block;
mod held;

use crate::layout::layout_for;
use crate::{lone_put, no_rows_put, root_put};
use block::block_scalar_put;
use held::{beside_put, compact_put, text_put, under_put};
use std::alloc::{AllocError, Global};
use yq_core::Value;
use yq_documents::Path;
use yq_edit_rules::{Layout, is_filled};
use yq_lookup::CutText;
use yq_places::Placement;
use yq_text::Segments;

/// A value in the place of what is there; `has_text` is whether a block scalar there has a text line.
fn value_put<'t>(
    alloc: Global,
    has_text: bool,
    layout: &Layout,
    value: &Value,
    placement: &Placement<'t>,
) -> Result<Segments<'t>, AllocError>
    ensures { IsExchange result (value_there has_text layout.now value.now placement.now) }
{
    match placement {
        Placement::Alone(lone) => lone_put(alloc, lone, value),
        Placement::Beside(held) => beside_put(alloc, layout, held, value),
        Placement::Under(held, _) => under_put(alloc, layout, held, value),
        Placement::Compact(mark, _, lines) => compact_put(alloc, layout, *mark, lines, value),
        Placement::Block(held, indent) => {
            block_scalar_put(alloc, has_text, layout, held, *indent, value)
        }
        Placement::Root(column, lines) => root_put(alloc, layout, *column, lines, value),
        Placement::NoRows(place) => no_rows_put(alloc, layout, place, value),
    }
}

/// Whether a text holds more than line breaks.
fn holds_text(text: &str) -> bool
    ensures { result ≡ list_any (λ b. not (is_feed b)) text.now }
{
    text.as_bytes().iter().any(|b| *b != b'\n')
}

/// Whether the node at a path, if one is there, is a scalar that holds more than line breaks.
fn has_text(alloc: Global, cut: &CutText<'_, '_>, path: &Path) -> Result<bool, AllocError>
    ensures { IfOk result (λ b. b ≡ has_text_at path.now cut.now) }
{
    let found = cut.scalar_at(alloc, path)?;
    let Some((_, old)) = found else {
        return Ok(false);
    };
    Ok(holds_text(old.text()))
}

/// Whether the block scalar at a path has a text line, if one is there; elsewhere nothing asks
/// for it.
fn text_there(
    alloc: Global,
    cut: &CutText<'_, '_>,
    path: &Path,
    placement: &Placement<'_>,
) -> Result<bool, AllocError>
    ensures { IfOk result (λ b. ArePutAlike b (has_text_at path.now cut.now) placement.now) }
{
    match placement {
        Placement::Block(_, _) => has_text(alloc, cut, path),
        Placement::Alone(_) => Ok(false),
        Placement::Beside(_) => Ok(false),
        Placement::Under(_, _) => Ok(false),
        Placement::Compact(_, _, _) => Ok(false),
        Placement::Root(_, _) => Ok(false),
        Placement::NoRows(_) => Ok(false),
    }
}

/// Whether a key holds what is there.
fn is_keyed(placement: &Placement<'_>) -> bool
    ensures { result ≡ layouts.is_under_key (placement_view placement.now) }
{
    match placement {
        Placement::Beside(held) => held.mark.keyed,
        Placement::Under(held, _) => held.mark.keyed,
        Placement::Block(held, _) => held.mark.keyed,
        Placement::Compact(mark, _, _) => mark.keyed,
        Placement::Alone(_) | Placement::Root(_, _) | Placement::NoRows(_) => false,
    }
}

/// A value in the place of what is at a path; `None` where nothing is there outside flow
/// collections.
///
/// # Errors
/// [`AllocError`] where memory is refused.
pub fn value_put_at<'t>(
    alloc: Global,
    cut: &CutText<'_, 't>,
    path: &Path,
    value: &Value,
) -> Result<Option<Segments<'t>>, AllocError>
    ensures { GivesSegments result (value_at_path path.now value.now cut.now) }
{
    let Some(placement) = cut.placement(path) else {
        return Ok(None);
    };
    if let Placement::Beside(held) = &placement
        && !is_filled(value)
    {
        return Ok(Some(text_put(alloc, held, value)?));
    }
    if let Placement::Alone(lone) = &placement {
        return Ok(Some(lone_put(alloc, lone, value)?));
    }
    let layout = layout_for(cut, path.doc, is_keyed(&placement), value);
    let text = text_there(alloc, cut, path, &placement)?;
    Ok(Some(value_put(alloc, text, &layout, value, &placement)?))
}
