//! What an operation that changes one row puts there.
ghost use Rattle.std.specs.Prelude.{◌≡◌, ◌+◌, ◌≤◌, length, true, IfOk, IfSome};
ghost use Rattle.yq_text.specs.Limit.{text_limit};
ghost use Rattle.yq_core.specs.Values.{value_node};
ghost use Rattle.yq_documents.{specs.Located.steps_of, specs.Reading.cut_of};
ghost use Rattle.yq_lookup.specs.PathLines.{IsLineOf};
ghost use Rattle.yq_places.{specs.PlacementViews.{IsHeldRow, piece_view}, specs.Placements.alone};
ghost use Rattle.yq_semantics.specs.Operations.{head_comment, line_comment, replace};
ghost use Rattle.yq_edit_rules.specs.Operands.{HasOperand};
ghost use Rattle.yq_batch.{specs.RowEnds.IsPlacedSo, specs.Under.op_meant};
ghost use Rattle.yq_batch.specs.RowRuns as spec;

use crate::empty_heads::value_in_nothing;
use crate::run::text_reads;
use crate::under::OpAt;
use std::alloc::{AllocError, Global};
use yq_block_edits::{comment_written, head_comment_written, is_kept, is_kept_in_row};
use yq_core::{Place, Value};
use yq_documents::Path;
use yq_edit_rules::{is_filled, value_text};
use yq_lookup::CutText;
use yq_outline::Position;
use yq_places::{HeldRow, Placement, TextPiece, is_text, line_end};
use yq_semantics::Op;
use yq_text::Halves;

/// A text that an operation puts in a row, in the place of what is between two places.
#[derive(Drop)]
pub(crate) struct RowPut {
    /// The row's document.
    pub(crate) doc: usize,
    /// How many rows come before that of the item or entry of which it is one.
    pub(crate) first: usize,
    /// How many rows come before it.
    pub(crate) row: usize,
    pub(crate) start: usize,
    pub(crate) end: usize,
    /// Nothing, where an equal scalar is there.
    pub(crate) written: Option<String>,
}

/// What is written for a value on one line in the place of an inline node; nothing, where it is the scalar
/// that is there.
pub(crate) fn value_written(
    alloc: Global,
    cut: &CutText<'_, '_>,
    path: &Path,
    at: &HeldRow<'_>,
    value: &Value,
) -> Result<Option<String>, AllocError>
    requires row { IsHeldRow path.now.doc (steps_of path.now) (cut_of cut.now) at.now }
    requires inline { at.now.inline ≡ true }
    ensures { IfOk result (spec.IsWrittenThere path.now value.now cut.now at.now.head.now) }
{
    let stays = is_kept_in_row(alloc, cut, path, at, value)?;
    if stays {
        return Ok(None);
    }
    let written = value_text(alloc, Place::Block, at.head.as_bytes(), value)?;
    Ok(Some(written))
}

/// What is written for a value in the place of a node that is alone on its line; nothing, where it is the scalar that is
/// there.
pub(crate) fn lone_written(
    alloc: Global,
    cut: &CutText<'_, '_>,
    path: &Path,
    head: &str,
    value: &Value,
) -> Result<Option<String>, AllocError>
    ensures { IfOk result (spec.IsWrittenThere path.now value.now cut.now head.now) }
{
    let stays = is_kept(alloc, cut, path, value)?;
    if stays {
        return Ok(None);
    }
    let written = value_text(alloc, Place::Block, head.as_bytes(), value)?;
    Ok(Some(written))
}

/// A value without items and entries in the place of an inline node.
fn value_in_row(
    alloc: Global,
    cut: &CutText<'_, '_>,
    path: &Path,
    at: &HeldRow<'_>,
    value: &Value,
) -> Result<Option<RowPut>, AllocError>
    requires operand { HasOperand (replace path.now.doc (steps_of path.now)
        (value_node value.now)) }
    requires row { IsHeldRow path.now.doc (steps_of path.now) (cut_of cut.now) at.now }
    ensures { IfOk result (λ o. IfSome o (spec.PutsValue path.now value.now cut.now)) }
{
    if !at.inline || is_filled(value) {
        return Ok(None);
    }
    text_reads(cut);
    let written = value_written(alloc, cut, path, at, value)?;
    Ok(Some(RowPut {
        doc: path.doc,
        first: at.row,
        row: at.row,
        start: at.start,
        end: at.start + at.head.len(),
        written,
    }))
}

/// How many rows come before that of an item or entry, and before the row under it; of a root's row, both times that.
fn lone_row(cut: &CutText<'_, '_>, path: &Path) -> Option<(usize, usize)>
    ensures { IfSome result (λ x. spec.IsLoneRow path.now.doc (steps_of path.now) (cut_of cut.now) x.0 x.1) }
{
    if path.steps.is_empty() {
        let walk = cut.walk(path.doc)?;
        let first = walk.document.first;
        return Some((first, first));
    }
    let line = cut.row_line(path)?;
    let under = line.row.checked_add(1)?;
    Some((line.row, under))
}

/// A value on one line in the place of a node that is alone on its line.
fn value_in_piece(
    alloc: Global,
    cut: &CutText<'_, '_>,
    path: &Path,
    lone: &TextPiece<'_>,
    value: &Value,
) -> Result<Option<RowPut>, AllocError>
    requires operand { HasOperand (replace path.now.doc (steps_of path.now)
        (value_node value.now)) }
    requires place { IsPlacedSo path.now cut.now (alone (piece_view lone.now)) }
    ensures { IfOk result (λ o. IfSome o (spec.PutsValue path.now value.now cut.now)) }
{
    let Some((first, row)) = lone_row(cut, path) else {
        return Ok(None);
    };
    text_reads(cut);
    let run = Halves::of(lone.text);
    is_text(run);
    is_text(lone.after);
    let written = lone_written(alloc, cut, path, lone.text, value)?;
    let start = lone.before.len();
    Ok(Some(RowPut {
        doc: path.doc,
        first,
        row,
        start,
        end: start + lone.text.len(),
        written,
    }))
}

/// A value in the place of a node that is alone on its line, or of an inline node after a key or dash, or of nothing after
/// that, if the row of the key or dash is there.
fn value_there(
    alloc: Global,
    cut: &CutText<'_, '_>,
    path: &Path,
    held: &Option<HeldRow<'_>>,
    value: &Value,
) -> Result<Option<RowPut>, AllocError>
    requires operand { HasOperand (replace path.now.doc (steps_of path.now)
        (value_node value.now)) }
    requires row { IfSome held.now (IsHeldRow path.now.doc (steps_of path.now) (cut_of cut.now)) }
    ensures { IfOk result (λ o. IfSome o (spec.PutsValue path.now value.now cut.now)) }
{
    if let Some(at) = held {
        if !at.head.is_empty() {
            return value_in_row(alloc, cut, path, at, value);
        }
    }
    match (cut.placement(path), held) {
        (Some(Placement::Alone(lone)), _) => value_in_piece(alloc, cut, path, &lone, value),
        (Some(Placement::Beside(_)), Some(at)) => value_in_nothing(alloc, cut, path, at, value),
        _ => Ok(None),
    }
}

/// Where what is replaced by a line comment begins and ends, after so many bytes, by the white space and the
/// comment that are there.
fn comment_place(text: &str, front: usize, white: &str, comment: &str) -> (usize, usize)
    requires { front + (length white.now + length comment.now) ≤ text_limit }
    ensures start { result.0 ≡ front + length (spec.white_left text.now white.now comment.now) }
    ensures end { result.1 ≡ front + (length white.now + length comment.now) }
{
    let after = front + white.len();
    let end = after + comment.len();
    if text.is_empty() && !comment.is_empty() {
        (front, end)
    } else {
        (after, end)
    }
}

/// A line comment in the place of another one, or of none.
fn comment_in_row(
    alloc: Global,
    cut: &CutText<'_, '_>,
    path: &Path,
    at: &HeldRow<'_>,
    text: &str,
) -> Result<Option<RowPut>, AllocError>
    requires operand { HasOperand (line_comment path.now.doc (steps_of path.now) text.now) }
    requires row { IsHeldRow path.now.doc (steps_of path.now) (cut_of cut.now) at.now }
    ensures { IfOk result (λ o. IfSome o (spec.PutsInRow
        (line_comment path.now.doc (steps_of path.now) text.now) (cut_of cut.now))) }
{
    text_reads(cut);
    let (white, comment, _) = line_end(at.tail);
    let (start, end) = comment_place(text, at.start + at.head.len(), white, comment);
    let written = comment_written(alloc, text, comment)?;
    Ok(Some(RowPut {
        doc: path.doc,
        first: at.row,
        row: at.row,
        start,
        end,
        written: Some(written),
    }))
}

/// A head comment in the place of another one, or of none, above a row. The line of its item or entry may be known.
fn comment_above_row(
    alloc: Global,
    cut: &CutText<'_, '_>,
    path: &Path,
    line: Option<Position>,
    text: &str,
) -> Result<Option<RowPut>, AllocError>
    requires line { IfSome line (IsLineOf path.now (cut_of cut.now)) }
    requires operand { HasOperand (head_comment path.now.doc (steps_of path.now) text.now) }
    ensures { IfOk result (λ o. IfSome o (spec.PutsAbove path.now text.now cut.now)) }
{
    let Some(at) = cut.line_from(path, line) else {
        return Ok(None);
    };
    let Some((column, above)) = cut.lines_above_from(path, Some(at)) else {
        return Ok(None);
    };
    text_reads(cut);
    let run = Halves::of(above.text);
    is_text(run);
    is_text(above.after);
    let start = above.before.len();
    let written = head_comment_written(alloc, cut, column, text)?;
    Ok(Some(RowPut {
        doc: path.doc,
        first: at.row,
        row: at.row,
        start,
        end: start + above.text.len(),
        written: Some(written),
    }))
}

/// What an operation puts in a row, if it does no more than that. From then on it is known what is on
/// its way.
pub(crate) fn row_put<'d>(
    alloc: Global,
    cut: &mut CutText<'d, '_>,
    at: OpAt<'d, '_>,
) -> Result<Option<RowPut>, AllocError>
    requires { HasOperand (op_meant at) }
    ensures same { cut.new ≡ cut.old }
    ensures puts { IfOk result (λ o. IfSome o (spec.PutsInRow (op_meant at.entry)
        (cut_of cut.old))) }
{
    let path = at.path;
    match at.op {
        Op::Replace(_, value) => {
            let held = cut.to_held_row(alloc, path);
            value_there(alloc, cut, path, &held, value)
        }
        Op::LineComment(_, text) => match cut.to_held_row(alloc, path) {
            Some(row) => comment_in_row(alloc, cut, path, &row, text),
            None => Ok(None),
        },
        Op::HeadComment(_, text) => {
            let line = cut.go_along(alloc, path);
            comment_above_row(alloc, cut, path, line, text)
        }
        Op::Append(_, _, _) | Op::Remove(_) => Ok(None),
    }
}
