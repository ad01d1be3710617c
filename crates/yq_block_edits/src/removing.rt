//! Remove: one of several items or entries of a block collection.
ghost use Rattle.std.specs.Prelude.{◌≡◌, ◌++◌, IfOk, OnOk, option_map, replicate, string_bytes};
ghost use Rattle.yq_core.specs.Text.{text_lines};
ghost use Rattle.yq_places.{specs.RemovalReading.{removal_view, seam_view}, specs.PlacementViews.pieces_view};
ghost use Rattle.yq_edit_rules.{specs.Answers.GivesSegments, specs.Removing.first_removed};
ghost use Rattle.yq_block_edits.{specs.SegmentsPut.IsExchange, specs.TextsPut.at_path};
ghost use Rattle.yq_edit_rules.specs.EntryEdits as entries;
ghost use Rattle.yq_edit_rules.specs.Removing as spec;

use std::alloc::{AllocError, Global};
use yq_core::lines::split_line;
use yq_core::text::{is_blank, split_white};
use yq_documents::Path;
use yq_lookup::CutText;
use yq_places::{LinesIn, Seam};
use yq_scalar::block_repair::{is_outside, is_short};
use yq_scalar_reader::push_spaces;
use yq_text::{Halves, Segment, Segments};

/// So many spaces.
fn spaces(alloc: Global, count: usize) -> Result<String, AllocError>
    ensures { IfOk result (λ s. string_bytes s ≡ replicate count 32) }
{
    let mut text = String::new(alloc);
    push_spaces(&mut text, count)?;
    Ok(text)
}

/// Adds a line, the white space in front of which is replaced by so many spaces.
fn push_indented<'t>(
    alloc: Global,
    segments: &mut Segments<'t>,
    column: usize,
    line: &'t str,
) -> Result<(), AllocError>
    ensures { OnOk result (segments.new ≡ segments.old ++ spec.put_indent column line.now) }
{
    let (white, rest) = split_white(line);
    let indent = spaces(alloc, column)?;
    segments.push(Segment::Put(Halves::of(white), indent))?;
    segments.push(Segment::Keep(Halves::of(rest)))
}

/// Adds a blank line that ends up after a block scalar.
fn push_blank<'t>(
    alloc: Global,
    segments: &mut Segments<'t>,
    seam: Seam,
    line: &'t str,
) -> Result<(), AllocError>
    ensures { OnOk result (segments.new ≡
        segments.old ++ spec.blank_mended (seam_view seam) line.now) }
{
    if seam.keeps {
        return segments.push(Segment::Put(Halves::of(line), String::new(alloc)));
    }
    if is_short(seam.indent, line.as_bytes()) {
        return segments.push(Segment::Keep(Halves::of(line)));
    }
    push_indented(alloc, segments, 0, line)
}

/// Adds a comment line that ends up after a block scalar.
fn push_comment<'t>(
    alloc: Global,
    segments: &mut Segments<'t>,
    seam: Seam,
    line: &'t str,
) -> Result<(), AllocError>
    ensures { OnOk result (segments.new ≡
        segments.old ++ spec.comment_mended (seam_view seam) line.now) }
{
    if is_outside(seam.indent, line.as_bytes()) {
        return segments.push(Segment::Keep(Halves::of(line)));
    }
    push_indented(alloc, segments, seam.column, line)
}

/// Adds the lines of a gap that ends up after a block scalar.
fn push_lines<'t>(
    alloc: Global,
    segments: &mut Segments<'t>,
    seam: Seam,
    gap: &'t str,
) -> Result<(), AllocError>
    ensures { OnOk result (segments.new ≡
        segments.old ++ spec.lines_mended (seam_view seam) (text_lines gap.now)) }
{
    let mut rest = gap;
    'lines: while !rest.is_empty() {
        let (line, after) = split_line(rest);
        if !is_blank(line.as_bytes()) {
            push_comment(alloc, segments, seam, line)?;
            segments.push(Segment::Keep(Halves::of(after)))?;
            return Ok(());
        }
        push_blank(alloc, segments, seam, line)?;
        rest = after;
    }
    Ok(())
}

/// Adds a gap that ends up at a seam, if there is one.
fn push_gap<'t>(
    alloc: Global,
    segments: &mut Segments<'t>,
    seam: Option<Seam>,
    gap: &'t str,
) -> Result<(), AllocError>
    ensures { OnOk result (segments.new ≡
        segments.old ++ spec.gap_mended (option_map seam_view seam) gap.now) }
{
    match seam {
        Some(seam) => push_lines(alloc, segments, seam, gap),
        None => segments.push(Segment::Keep(Halves::of(gap))),
    }
}

/// The segments in which the rows of an item or entry go, and the gap after them is mended.
fn take_out<'d>(
    alloc: Global,
    gone: &LinesIn<'d>,
    seam: Option<Seam>,
) -> Result<Segments<'d>, AllocError>
    ensures { IfOk result (λ ss. ss ≡ spec.rows_removed (removal_view gone.now seam)) }
{
    let mut segments = Segments::new(Vec::new(alloc));
    segments.push(Segment::Keep(gone.before))?;
    segments.push(Segment::Put(gone.lines, String::new(alloc)))?;
    push_gap(alloc, &mut segments, seam, gone.last)?;
    segments.push(Segment::Keep(gone.after))?;
    Ok(segments)
}

/// The segments in which the first item or entry of a compact collection goes.
fn take_first<'d>(
    alloc: Global,
    before: Halves<'d>,
    gone: Halves<'d>,
    after: Halves<'d>,
) -> Result<Segments<'d>, AllocError>
    ensures { IsExchange result (first_removed
        (pieces_view before.entry gone.entry after.entry)) }
{
    let segments = vec![in alloc;
        Segment::Keep(before),
        Segment::Put(gone, String::new(alloc)),
        Segment::Keep(after),
    ]?;
    Ok(Segments::new(segments))
}

/// One of several items or entries of a block collection taken out of a text; `None` where the path
/// leads to none, or to one that doesn't begin its rows and isn't the first of a compact collection.
///
/// # Errors
/// [`AllocError`] where memory is refused.
pub fn one_removed<'d>(
    alloc: Global,
    cut: &CutText<'_, 'd>,
    path: &Path,
) -> Result<Option<Segments<'d>>, AllocError>
    ensures { GivesSegments result (at_path entries.one_removed path.now cut.now) }
{
    if let Some((gone, seam)) = cut.removal(path) {
        return take_out(alloc, &gone, seam).map(Some);
    }
    let Some((before, gone, after)) = cut.first_removal(path) else {
        return Ok(None);
    };
    take_first(alloc, before, gone, after).map(Some)
}
