//! Where the entries of a mapping end that are on lines of their own, and entries that an update puts there.
ghost use Rattle.std.specs.Prelude.{◌≡◌, true, IfOk, IfSome, Some};
ghost use Rattle.yq_text.specs.Halves.{whole};
ghost use Rattle.yq_places.{specs.PlacementViews.{held_view, lines_view}, specs.Placements.{MarkPieces, compact, root, under}};
ghost use Rattle.yq_semantics.specs.Operations.{operation_of};
ghost use Rattle.yq_edit_rules.specs.Operands.{HasOperand};
ghost use Rattle.yq_batch.specs.RowEnds as spec;

use crate::change::{HeadChange, are_same_steps};
use crate::slots::SlotPlace;
use std::alloc::{AllocError, Global};
use yq_block_edits::more_written;
use yq_documents::Path;
use yq_edit_rules::{Child, is_filled};
use yq_lookup::CutText;
use yq_places::{Held, LinesIn, Placement};
use yq_semantics::Op;
use yq_text::Halves;

/// Where the entries of a mapping end that are on lines of their own.
#[derive(Clone, Copy)]
pub(crate) struct EntriesEnd<'o> {
    /// The path to the mapping.
    pub(crate) path: &'o Path,
    /// How many rows come before that of its first entry; 0, where all rows of its document are entries' rows.
    pub(crate) first: usize,
    /// Where the last of their lines ends.
    pub(crate) at: usize,
    /// The column in which they begin.
    pub(crate) column: usize,
}

/// Where a text comes in another one, if a break ends the line before it.
fn line_before(text: Halves<'_>, last: &str, after: Halves<'_>) -> Option<usize>
    ensures { IfSome result (spec.EndsLineAt (whole text.entry) last.now (whole after.entry)) }
{
    if last.is_empty() {
        return None;
    }
    text.len().checked_sub(after.len())
}

/// Where the entries of a mapping end that are on the lines under the key or dash at a path, deeper than that, if the
/// last line has a break.
fn under_end<'o>(
    cut: &CutText<'_, '_>,
    path: &'o Path,
    held: &Held<'_>,
    column: usize,
) -> Option<EntriesEnd<'o>>
    requires { spec.IsPlacedSo path.now cut.now (under (held_view held.now) column) }
    ensures { IfSome result (spec.IsEndThere cut.now) }
{
    if held.mark.column >= column {
        return None;
    }
    let line = cut.row_line(path)?;
    let first = line.row.checked_add(1)?;
    let at = line_before(cut.text(), held.last, held.after)?;
    Some(EntriesEnd {
        path,
        first,
        at,
        column,
    })
}

/// Where the entries of a mapping end that begins on the line of the dash at a path, if the last line has a break.
fn dash_end<'o>(
    cut: &CutText<'_, '_>,
    path: &'o Path,
    lines: &LinesIn<'_>,
    column: usize,
) -> Option<EntriesEnd<'o>>
    requires { (k : MarkPieces) × spec.IsPlacedSo path.now cut.now (compact k column (lines_view lines.now)) }
    ensures { IfSome result (spec.IsEndThere cut.now) }
{
    let line = cut.row_line(path)?;
    let at = line_before(cut.text(), lines.last, lines.after)?;
    Some(EntriesEnd {
        path,
        first: line.row,
        at,
        column,
    })
}

/// Where the entries of a root end, if the last line has a break.
fn root_end<'o>(
    cut: &CutText<'_, '_>,
    path: &'o Path,
    lines: &LinesIn<'_>,
    column: usize,
) -> Option<EntriesEnd<'o>>
    requires { spec.IsPlacedSo path.now cut.now (root column (lines_view lines.now)) }
    ensures { IfSome result (spec.IsEndThere cut.now) }
{
    let at = line_before(cut.text(), lines.last, lines.after)?;
    Some(EntriesEnd {
        path,
        first: 0,
        at,
        column,
    })
}

/// Where the entries of the mapping at a path end, if they are on lines of their own.
fn entries_end<'o>(cut: &CutText<'_, '_>, path: &'o Path) -> Option<EntriesEnd<'o>>
    ensures { IfSome result (spec.IsEndThere cut.now) }
{
    match cut.placement(path) {
        Some(Placement::Under(held, column)) => under_end(cut, path, &held, column),
        Some(Placement::Compact(_, column, lines)) => dash_end(cut, path, &lines, column),
        Some(Placement::Root(column, lines)) => root_end(cut, path, &lines, column),
        _ => None,
    }
}

/// The path to the mapping into which the first of operations that puts an entry somewhere puts it.
fn first_added(ops: &[Op]) -> Option<&Path> {
    'operations: for op in ops {
        if let Op::Append(path, _, _) = op {
            return Some(path);
        }
    }
    None
}

/// Where the mapping ends into which operations put entries, if one of them does; `None` where that end isn't known.
pub(crate) fn end_for<'o>(cut: &CutText<'_, '_>, ops: &'o [Op]) -> Option<Option<EntriesEnd<'o>>>
    ensures { IfSome result (λ o. IfSome o (spec.IsEndThere cut.now)) }
{
    let Some(path) = first_added(ops) else {
        return Some(None);
    };
    let end = entries_end(cut, path)?;
    Some(Some(end))
}

/// The entry that an operation puts at the end of a mapping; nothing, where it does something else.
pub(crate) fn added_at_end<'o>(
    alloc: Global,
    cut: &CutText<'_, '_>,
    end: &EntriesEnd<'_>,
    op: &'o Op,
) -> Result<Option<HeadChange<'o>>, AllocError>
    requires { HasOperand (operation_of op.now) }
    ensures { IfOk result (λ o. IfSome o (spec.AddsThere (operation_of op.now) cut.now end.now)) }
{
    let Op::Append(path, added, value) = op else {
        return Ok(None);
    };
    let Some(key) = added else {
        return Ok(None);
    };
    if path.doc != end.path.doc || is_filled(value) {
        return Ok(None);
    }
    if !are_same_steps(&path.steps, &end.path.steps) {
        return Ok(None);
    }
    let child = Child {
        key: Some(key),
        value,
    };
    let written = more_written(alloc, cut, path.doc, child, end.column)?;
    let place = SlotPlace {
        start: end.at,
        end: end.at,
        more: true,
    };
    Ok(Some(HeadChange {
        place,
        lead: "",
        written: Some(written),
        steps: &path.steps,
    }))
}

/// Whether a place in a row comes before the end of a mapping, if that is known, and no earlier than its first entry.
pub(crate) fn is_before_end(end: &Option<EntriesEnd<'_>>, row: usize, stop: usize) -> bool
    ensures { result ≡ true → IfSome end.now (spec.IsEndBelow row stop) }
{
    match end {
        Some(end) => end.first <= row && stop < end.at,
        None => true,
    }
}
