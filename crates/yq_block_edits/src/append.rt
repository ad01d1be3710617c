//! Append: one more item or entry at the end of a block collection.
ghost use Rattle.std.specs.Prelude.{◌≡◌, IfOk, Some, string_bytes};
ghost use Rattle.yq_core.{specs.Values.value_node, specs.Strings.{AddsText, GivesText}};
ghost use Rattle.yq_places.specs.PlacementViews.{held_view, lines_view};
ghost use Rattle.yq_edit_rules.specs.Answers.{GivesSegments};
ghost use Rattle.yq_block_edits.specs.SegmentsPut.{IsExchange, more_at_path};
ghost use Rattle.yq_block_edits.specs.TextsPut.{layout_in, child_lines, more_text, text_after_line};
ghost use Rattle.yq_edit_rules.specs.EntryEdits as spec;
ghost use Rattle.yq_edit_rules.specs.PiecePuts as pieces;

use crate::layout::layout_for;
use std::alloc::{AllocError, Global};
use yq_core::Value;
use yq_documents::Path;
use yq_edit_rules::{Child, Layout, push_entry};
use yq_lookup::CutText;
use yq_places::{Held, LinesIn, Placement};
use yq_scalar::block_written::break_text;
use yq_scalar_reader::push_spaces;
use yq_text::{Halves, Segment, Segments};

/// Adds the lines of an item or entry at a column, up to their last break.
fn push_lines(
    alloc: Global,
    out: &mut String,
    layout: &Layout,
    column: usize,
    child: Child<'_>,
) -> Result<(), AllocError>
    ensures { AddsText result out.old out.new (child_lines layout.now column child.entry) }
{
    push_spaces(out, column)?;
    push_entry(alloc, out, layout, column, child)
}

/// The lines of an item or entry at a column, with a break: after them, or in front of them, where
/// the line before has none.
fn entry_text(
    alloc: Global,
    layout: &Layout,
    child: Child<'_>,
    column: usize,
    last: &str,
) -> Result<String, AllocError>
    ensures { GivesText result (more_text layout.now child.entry column last.now) }
{
    let mut out = String::new(alloc);
    if last.is_empty() {
        out.push_str(break_text(layout.br))?;
    }
    push_lines(alloc, &mut out, layout, column, child)?;
    if !last.is_empty() {
        out.push_str(break_text(layout.br))?;
    }
    Ok(out)
}

/// The same as block style looks in document `doc` of a text.
fn more_lines(
    alloc: Global,
    cut: &CutText<'_, '_>,
    doc: usize,
    child: Child<'_>,
    column: usize,
    last: &str,
) -> Result<String, AllocError>
    ensures { GivesText result (more_text (layout_in doc cut.now) child.entry column last.now) }
{
    let layout = layout_for(cut, doc, child.key.is_some(), child.value);
    entry_text(alloc, &layout, child, column, last)
}

/// The lines of one more item or entry at a column in document `doc`, after a line with a break.
pub fn more_written(
    alloc: Global,
    cut: &CutText<'_, '_>,
    doc: usize,
    child: Child<'_>,
    column: usize,
) -> Result<String, AllocError>
    ensures { GivesText result (text_after_line doc cut.now child.entry column) }
{
    more_lines(alloc, cut, doc, child, column, "\n")
}

/// Lines put after those under a key or dash.
fn after_held<'t>(alloc: Global, held: &Held<'t>, new: String) -> Result<Segments<'t>, AllocError>
    ensures { IfOk result (λ ss. ss ≡ spec.after_held (held_view held.now) (string_bytes new)) }
{
    let segments = vec![in alloc;
        Segment::Keep(held.before),
        Segment::Keep(Halves::of(held.space)),
        Segment::Keep(Halves::of(held.head)),
        Segment::Keep(Halves::of(held.white)),
        Segment::Keep(Halves::of(held.comment)),
        Segment::Keep(Halves::of(held.line_break)),
        Segment::Keep(held.lines),
        Segment::Keep(Halves::of(held.last)),
        Segment::Put(Halves::of(""), new),
        Segment::Keep(held.after),
    ]?;
    Ok(Segments::new(segments))
}

/// Lines put after others and their last break.
fn after_lines<'t>(
    alloc: Global,
    lines: &LinesIn<'t>,
    new: String,
) -> Result<Segments<'t>, AllocError>
    ensures { IsExchange result (pieces.after_lines (lines_view lines.now) (string_bytes new)) }
{
    let segments = vec![in alloc;
        Segment::Keep(lines.before),
        Segment::Keep(lines.lines),
        Segment::Keep(Halves::of(lines.last)),
        Segment::Put(Halves::of(""), new),
        Segment::Keep(lines.after),
    ]?;
    Ok(Segments::new(segments))
}

/// One more item or entry at the end of what is at a path; `None` where no block collection
/// is there.
///
/// # Errors
/// [`AllocError`] where memory is refused.
pub fn more_at<'t>(
    alloc: Global,
    cut: &CutText<'_, 't>,
    path: &Path,
    key: Option<&str>,
    value: &Value,
) -> Result<Option<Segments<'t>>, AllocError>
    ensures { GivesSegments result (more_at_path path.now cut.now key.entry value.now) }
{
    let doc = path.doc;
    let child = Child { key, value };
    match cut.placement(path) {
        Some(Placement::Under(held, column)) => {
            let new = more_lines(alloc, cut, doc, child, column, held.last)?;
            after_held(alloc, &held, new).map(Some)
        }
        Some(Placement::Compact(_, column, lines)) => {
            let new = more_lines(alloc, cut, doc, child, column, lines.last)?;
            after_lines(alloc, &lines, new).map(Some)
        }
        Some(Placement::Root(column, lines)) => {
            let new = more_lines(alloc, cut, doc, child, column, lines.last)?;
            after_lines(alloc, &lines, new).map(Some)
        }
        _ => Ok(None),
    }
}
