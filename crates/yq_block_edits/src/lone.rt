//! A value in the place of a node that isn't after a key or dash.
ghost use Rattle.std.specs.Prelude.{◌≡◌};
ghost use Rattle.yq_text.specs.Halves.{whole};
ghost use Rattle.yq_core.{specs.Values.value_node, specs.Strings.GivesText};
ghost use Rattle.yq_places.specs.PlacementViews.{piece_view};
ghost use Rattle.yq_block_edits.{specs.SegmentsPut.{IsExchange, value_root, value_no_rows}, specs.TextsPut.lines_put_after};
ghost use Rattle.yq_edit_rules.specs.ClosedTexts as closed;
ghost use Rattle.yq_edit_rules.specs.ReplaceEdits as spec;

use crate::pieces::{replace_lines, replace_piece};
use crate::space::apart;
use std::alloc::{AllocError, Global};
use yq_core::{Place, Value};
use yq_edit_rules::{Layout, push_block, value_text};
use yq_places::{LinesIn, TextPiece};
use yq_scalar::block_written::break_text;
use yq_text::{Halves, Segments};

/// A value in one line in the place of a node that is alone on its line.
///
/// # Errors
/// [`AllocError`] where memory is refused.
pub fn lone_put<'t>(
    alloc: Global,
    lone: &TextPiece<'t>,
    value: &Value,
) -> Result<Segments<'t>, AllocError>
    ensures { IsExchange result (spec.lone_put (piece_view lone.now) (value_node value.now)) }
{
    let text = value_text(alloc, Place::Block, lone.text.as_bytes(), value)?;
    let new = apart(alloc, lone.text, text)?;
    replace_piece(alloc, lone, new)
}

/// A value in block style in the place of a root that is a block collection in a column.
///
/// # Errors
/// [`AllocError`] where memory is refused.
pub fn root_put<'t>(
    alloc: Global,
    layout: &Layout,
    column: usize,
    root: &LinesIn<'t>,
    value: &Value,
) -> Result<Segments<'t>, AllocError>
    ensures { IsExchange result (value_root layout.now value.now column root.now) }
{
    let mut text = String::new(alloc);
    push_block(alloc, &mut text, layout, column, value)?;
    replace_lines(alloc, root, text)
}

/// Whether a text is empty or ends in a break.
#[tactic(auto, unfolding(yq_edit_rules::specs::ClosedTexts::is_closed_text))]
fn is_closed_text(text: &[u8]) -> bool
    ensures { result ≡ closed.is_closed_text text.now }
{
    match text {
        [] => true,
        [.., last] => *last == b'\n',
    }
}

/// The same of a text in two halves.
#[tactic(auto, using(crate::proofs::ClosedLaws::half_agrees))]
fn is_closed(text: Halves<'_>) -> bool
    ensures { result ≡ closed.is_closed_text (whole text.entry) }
{
    if text.back.is_empty() {
        return is_closed_text(text.front.as_bytes());
    }
    is_closed_text(text.back.as_bytes())
}

/// A value on lines of its own after a text: with a break after it, or in front of it, where that
/// text ends in none.
fn following_lines(
    alloc: Global,
    layout: &Layout,
    before: Halves<'_>,
    value: &Value,
) -> Result<String, AllocError>
    ensures { GivesText result (lines_put_after before.entry layout.now value.now) }
{
    let mut text = String::new(alloc);
    if is_closed(before) {
        push_block(alloc, &mut text, layout, 0, value)?;
        text.push_str(break_text(layout.br))?;
    } else {
        text.push_str(break_text(layout.br))?;
        push_block(alloc, &mut text, layout, 0, value)?;
    }
    Ok(text)
}

/// A value in block style after the gap of a document without rows.
///
/// # Errors
/// [`AllocError`] where memory is refused.
pub fn no_rows_put<'t>(
    alloc: Global,
    layout: &Layout,
    place: &TextPiece<'t>,
    value: &Value,
) -> Result<Segments<'t>, AllocError>
    ensures { IsExchange result (value_no_rows layout.now value.now place.now) }
{
    let lines = following_lines(alloc, layout, place.before, value)?;
    replace_piece(alloc, place, lines)
}
