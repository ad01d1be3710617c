//! What is taken out of a text with an item or entry of a block collection.
ghost use Rattle.std.specs.Prelude.{◌≡◌, ◌<◌, ◌≤◌, ◌-◌, Option, take, length, map, option_map};
ghost use Rattle.yq_text.specs.Halves.{whole};
ghost use Rattle.yq_core.{specs.Entries.tree_step, specs.Block.BlockText, specs.Text.{joined, text_lines}};
ghost use Rattle.yq_row_table.specs.Removal.{block_numbers, hold_comment, last_block};
ghost use Rattle.yq_places.specs.PlacedRows.{PlacedPart};
ghost use Rattle.yq_row_walk.specs.Walk.{IsWalk, OfWalkRows};
ghost use Rattle.yq_documents.specs.Pieces as pieces;
ghost use Rattle.yq_places.specs.RemovalPlaces as spec;
ghost use Rattle.yq_places.specs.RemovalReading as reading;

use crate::places::halves::is_text;
use crate::places::lines_cut::LinesIn;
use crate::places::row_place::row_stop;
use yq_core::Step;
use yq_core::lines::split_line;
use yq_core::text::is_blank;
use yq_documents::last_run;
use yq_row_table::Rows;
use yq_row_walk::{Walk, line_at, position_after, row_start};
use yq_text::Halves;

/// What a gap that ends up after a block scalar asks.
#[derive(Clone, Copy)]
pub struct Seam {
    /// Whether the scalar keeps the empty lines at its end.
    pub keeps: bool,
    /// How far its text is indented, in columns.
    pub indent: usize,
    /// In which column the next row begins; 0 at the document's end.
    pub column: usize,
}

/// A gap cut before the comment that ends it.
fn split_run(gap: &str) -> (&str, &str)
    ensures kept { result.0.now ≡ joined (pieces.before_run (text_lines gap.now)) }
    ensures run { result.1.now ≡ joined (pieces.last_run (text_lines gap.now)) }
{
    let run = last_run(gap);
    gap.split_at(gap.len() - run.len())
}

/// Whether one of these lines isn't blank.
fn holds_comment(gap: &str) -> bool
    ensures { result ≡ hold_comment (text_lines gap.now) }
{
    let mut rest = gap;
    'lines: while !rest.is_empty() {
        let (line, after) = split_line(rest);
        if !is_blank(line.as_bytes()) {
            return true;
        }
        rest = after;
    }
    false
}

/// Where the rows of the item or entry begin and end to which steps lead, after where those of its
/// document begin, if its line is the first one of a row.
pub fn own_rows(walk: &Walk<'_, '_>, steps: &[Step]) -> Option<(usize, usize, usize)>
    requires { IsWalk walk.now }
    ensures { OfWalkRows walk.now (λ d rs. option_map (λ m. (m.0, m.1, m.2)) result ≡
        option_map (reading.marks d.first)
        (spec.own_rows (map tree_step steps.now) rs)) }
{
    let at = line_at(walk, steps)?;
    if at.line != 0 {
        return None;
    }
    let end = position_after(walk.rows, walk.document, at).row;
    Some((walk.document.first, at.row, end))
}

/// The gap before row `i` and its column; where a part ends before it, the gap there and 0.
fn gap_before<'t>(rows: &Rows<'t>, i: usize) -> (&'t str, usize)
    ensures { (result.0.now, result.1) ≡ reading.gap_counts i rows.now }
{
    let (from, to) = rows.rest(i);
    if from < to {
        return (rows.part(from).end, 0);
    }
    if i < rows.len() {
        let row = rows.row(i);
        (row.gap(), row.column())
    } else {
        ("", 0)
    }
}

/// What a gap asks that comes after the block scalar of the row before row `at` of a document, the
/// first row of which is this one; none, where that row holds no block scalar.
fn block_before(rows: &Rows<'_>, first: usize, at: usize) -> Option<(bool, usize)>
    requires order { first ≤ at }
    requires within { at < length rows.now.rows }
    ensures { (h : reading.HasPartFrom rows.now first at) →
        option_map (λ b. (b.0, b.1)) result ≡
        option_map block_numbers (last_block (take (at - first) h.part.rows)) }
{
    if at == first {
        None
    } else {
        rows.block(at - 1)
    }
}

/// The seam after a block scalar, where no comment line stays after it.
fn seam_of(block: Option<(bool, usize)>, column: usize, kept: &str) -> Option<Seam>
    ensures { (b : Option BlockText) → option_map (λ b. (b.0, b.1)) block ≡
        option_map block_numbers b → option_map reading.seam_view result ≡
        spec.seam_after b column kept.now }
{
    let (keeps, indent) = block?;
    if holds_comment(kept) {
        return None;
    }
    Some(Seam {
        keeps,
        indent,
        column,
    })
}

/// The lines that go from a text with these rows of a document, which are the comment above them and they, with the
/// gap after them; and the seam of that gap, where it then comes after a block scalar.
pub fn rows_out<'d>(
    rows: &Rows<'d>,
    text: Halves<'d>,
    marks: (usize, usize, usize),
) -> (LinesIn<'d>, Option<Seam>)
    requires { reading.HasOwn (whole text) rows.now (marks.0, marks.1, marks.2) }
    ensures { (d : PlacedPart) (x : spec.OwnRows) →
        reading.IsOwn (whole text.entry) rows.now d x (marks.0, marks.1, marks.2) →
        reading.removal_view result.0 result.1 ≡ spec.rows_out d x }
{
    is_text(text);
    let (first, at, end) = marks;
    let (kept, _) = split_run(rows.row(at).gap());
    let start = row_start(rows, at) + kept.len();
    let stop = row_stop(rows, end - 1);
    let (gap, column) = gap_before(rows, end);
    let block = block_before(rows, first, at);
    let (before, rest) = text.split_at(start);
    let (lines, rest) = rest.split_at(stop - start);
    let (_, after) = rest.split_at(gap.len());
    let gone = LinesIn {
        before,
        lines,
        last: gap,
        after,
    };
    (gone, seam_of(block, column, kept))
}
