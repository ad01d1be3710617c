//! Where entries, contents and comments are; the first break of a text; and where it has room for comments.
ghost use Rattle.std.specs.Prelude.{◌≡◌, ◌<◌, length, option_map, slice_get, IfSome, Some};
ghost use Rattle.yq_outline.specs.Extents.{lines_before_mark};
ghost use Rattle.yq_row_table.{specs.Rows.cut_text, specs.View.Slices};
ghost use Rattle.yq_documents.{specs.Pieces.{piece_span, span}, specs.Reading.cut_of};
ghost use Rattle.yq_places.specs.PathPieces.{path_piece};
ghost use Rattle.yq_lookup.specs.PathLines.{IsLineOf};
ghost use Rattle.yq_documents.specs.LinesInRows as lines;
ghost use Rattle.yq_documents.specs.declared.path.Part.TheVariants as parts;
ghost use Rattle.yq_places.specs.EntryReading as spec;
ghost use Rattle.yq_places.specs.FirstBreak as breaks;

use crate::cut_text::CutText;
use yq_core::Break;
use yq_documents::{Part, Path, Span};
use yq_outline::Position;
use yq_places::{break_of, content_of, entry_of, head_comment_in, line_comment_in};
use yq_row_table::Rows;
use yq_row_walk::lines_before_mark;

/// Whether a line has room for a comment.
fn line_has_room(rows: &Rows<'_>, at: Position, part: Part) -> bool
    requires { at.row < length rows.now.rows }
    ensures { (x : Slices) → slice_get rows.now.rows at.row ≡ Some x → (s : lines.RowLine) →
        s.line ≡ at.line → lines_before_mark x ≡ length s.row.dashes →
        result ≡ lines.line_has_room part s }
{
    match part {
        Part::Content => false,
        Part::Entry => false,
        Part::HeadComment => at.line == 0,
        Part::LineComment => at.line == lines_before_mark(rows, at.row),
    }
}

impl<'t> CutText<'_, 't> {
    /// The place of the entry or item at a path, unless it is in flow.
    pub fn entry_place(&self, path: &Path) -> Option<Span>
        ensures { option_map span result ≡ spec.line_entry_at path.now (cut_of self.now) }
    {
        let walk = self.walk(path.doc)?;
        entry_of(&walk, &path.steps)
    }

    /// The place of the content of the node at a path, unless it is in flow.
    pub fn content_place(&self, path: &Path) -> Option<Span>
        ensures { option_map span result ≡ spec.line_content_at path.now (cut_of self.now) }
    {
        let walk = self.walk(path.doc)?;
        content_of(&walk, &path.steps)
    }

    /// The place of the comment after the entry or item at a path, on the line of its key or dash.
    pub fn line_comment_place(&self, path: &Path) -> Option<Span>
        ensures { option_map span result ≡
            option_map piece_span (path_piece path.now parts.LineComment (cut_of self.now)) }
    {
        let at = self.row_line(path)?;
        line_comment_in(self.rows, at)
    }

    /// The place of the run of comments above the entry or item at a path, with the breaks.
    pub fn head_comment_place(&self, path: &Path) -> Option<Span>
        ensures { option_map span result ≡
            option_map piece_span (path_piece path.now parts.HeadComment (cut_of self.now)) }
    {
        let at = self.row_line(path)?;
        head_comment_in(self.rows, at)
    }

    /// The first break of the text, with which what is put into it is written; LF where it has none.
    pub fn first_break(&self) -> Break
        ensures { result ≡ breaks.first_break (cut_text (cut_of self.now)) }
    {
        break_of(self.whole())
    }

    /// Whether the text has room for a comment at a path: `HeadComment` above the row that the
    /// entry's or item's key or dash begins, `LineComment` after what is on the line of that key
    /// or dash, where it is the row's last one. The root has none, nor have items and entries in flow,
    /// and the other parts are no comments.
    pub fn has_room(&self, path: &Path, part: Part) -> bool
        ensures { result ≡ lines.has_room path.now part self.now }
    {
        self.has_room_from(path, None, part)
    }

    /// The same, where the line of the entry or item may be known.
    pub fn has_room_from(&self, path: &Path, line: Option<Position>, part: Part) -> bool
        requires { IfSome line (IsLineOf path.now (cut_of self.now)) }
        ensures { result ≡ lines.has_room path.now part self.now }
    {
        let Some(at) = self.line_from(path, line) else {
            return false;
        };
        line_has_room(self.rows(), at, part)
    }
}
