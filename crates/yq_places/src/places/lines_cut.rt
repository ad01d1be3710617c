//! Lines cut out of a text, and the ends of lines.
ghost use Rattle.std.specs.Prelude.{[], ◌≡◌, ◌++◌, if◌then◌else◌};
ghost use Rattle.yq_text.specs.Halves.{whole};
ghost use Rattle.yq_core.specs.Text.{is_empty};
ghost use Rattle.yq_places.{specs.CommentPlaces.end_in_line, specs.PlacementReading.{EndsRows, rows_lines}};
ghost use Rattle.yq_places.specs.PlacementViews.{lines_view};
ghost use Rattle.yq_places.specs.LineReading as reading;

use crate::places::halves::{is_text, split_break};
use crate::places::row_place::row_stop;
use crate::places::written::cut_at;
use yq_core::lines::split_at_break;
use yq_core::text::split_white;
use yq_row_table::Rows;
use yq_text::Halves;

/// Lines of a text, between the text before them and the text after them: those of a collection less their last break, or
/// those that go with an item or entry.
#[derive(Clone, Copy)]
pub struct LinesIn<'t> {
    pub before: Halves<'t>,
    pub lines: Halves<'t>,
    /// The break of the last one; after lines that go, the gap after them.
    pub last: &'t str,
    pub after: Halves<'t>,
}

impl LinesIn<'_> {
    /// Whether there are none.
    pub fn is_empty(&self) -> bool
        ensures { result ≡ is_empty ((lines_view self.now).lines ++ (lines_view self.now).last) }
    {
        self.lines.is_empty() && self.last.is_empty()
    }
}

/// A break that ends a text, as one string.
fn last_break<'t>(end: Halves<'_>) -> &'t str
    requires { reading.IsLastBreak (whole end) }
    ensures { result.now ≡ whole end.entry }
{
    match end.len() {
        0 => "",
        1 => "\n",
        _ => "\r\n",
    }
}

/// Lines from a place on up to another one, in bytes.
fn cut_lines<'t>(text: Halves<'t>, from: usize, stop: usize) -> LinesIn<'t>
    requires { reading.CutsLines (whole text) from stop }
    ensures { (h : reading.CutsLines (whole text.entry) from stop) →
        lines_view result ≡ reading.line_list h }
{
    let (before, own, after) = cut_at(text, from, stop);
    let (lines, last) = split_break(own);
    LinesIn {
        before,
        lines,
        last: last_break(last),
        after,
    }
}

/// Lines from a place on in the rows of an item or entry, up to their end, after which row `end` comes.
pub fn lines_from<'t>(rows: &Rows<'t>, text: Halves<'t>, from: usize, end: usize) -> LinesIn<'t>
    requires { EndsRows (whole text) rows.now from end }
    ensures { (h : EndsRows (whole text.entry) rows.now from end) →
        lines_view result ≡ rows_lines h }
{
    is_text(text);
    cut_lines(text, from, row_stop(rows, end - 1))
}

/// The white space and the comment that end a line, and its break, of which each may be nothing: where
/// this is all after what is written in the line.
pub fn line_end(tail: &str) -> (&str, &str, &str)
    ensures white { result.0.now ≡ (end_in_line [] tail.now).white }
    ensures comment { result.1.now ≡ (end_in_line [] tail.now).comment }
    ensures line_break { result.2.now ≡ (end_in_line [] tail.now).after }
{
    let (white, line) = split_white(tail);
    let (comment, line_break) = split_at_break(line);
    (white, comment, line_break)
}

/// The first of two texts, or the second one.
pub fn either<'t>(first: bool, a: &'t str, b: &'t str) -> &'t str
    ensures { result.now ≡ (if first then a.now else b.now) }
{
    if first { a } else { b }
}
