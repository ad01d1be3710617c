//! What is in a text where paths lead, outside flow collections: at items, entries and roots, with the lines above them.
ghost use Rattle.std.specs.Prelude.{◌≡◌, [], IfSome, map, option_map};
ghost use Rattle.yq_core.specs.Entries.{tree_step};
ghost use Rattle.yq_documents.{specs.Located.steps_of, specs.Reading.cut_of};
ghost use Rattle.yq_lookup.{specs.HeldRows.IsHeldUpto, specs.PathLines.IsLineOf};
ghost use Rattle.yq_places.specs.CommentPlaces as comments;
ghost use Rattle.yq_places.specs.RootReading as roots;
ghost use Rattle.yq_places.specs.PlacementReading as reading;
ghost use Rattle.yq_places.specs.Placements as spec;
ghost use Rattle.yq_places.specs.PlacementViews as row_agrees;

use crate::cut_text::CutText;
use crate::known_document::part_from;
use yq_core::Step;
use yq_documents::{Path, rows_to};
use yq_outline::Position;
use yq_places::{
    Held, Placement, RowsOfEntry, TextPiece, above, entry_along, entry_placement, held_in,
    rows_placement,
};
use yq_row_walk::row_start;

impl<'t> CutText<'_, 't> {
    /// What is at a path; none where no item, entry or document is there, or where it is in a
    /// flow collection.
    pub fn placement(&self, path: &Path) -> Option<Placement<'t>>
        ensures { option_map row_agrees.placement_view result ≡
            spec.placement_at path.now.doc (steps_of path.now) (cut_of self.now) }
    {
        if path.steps.is_empty() {
            return self.root_placement(path.doc);
        }
        let text = self.whole();
        let entry = self.entry(path)?;
        Some(entry_placement(self.rows(), text, entry))
    }

    /// Where document `doc` ends, in bytes, if it has no rows.
    pub(crate) fn rowless_end(&self, doc: usize) -> Option<usize>
        ensures { result ≡ roots.rowless_at doc (cut_of self.now) }
    {
        let rows = self.rows();
        let part = part_from(rows, self.documents(), doc)?;
        if rows_to(rows, part) != rows.part(part).rows {
            return None;
        }
        Some(rows.part_end(part))
    }

    /// The text of document `doc`, if it has no rows.
    fn no_rows(&self, doc: usize) -> Option<TextPiece<'t>>
        ensures { option_map row_agrees.piece_view result ≡
            roots.rowless_place doc (cut_of self.now) }
    {
        let whole = self.whole();
        let end = self.rowless_end(doc)?;
        let (before, after) = whole.split_at(end);
        Some(TextPiece {
            before,
            text: "",
            after,
        })
    }

    /// What is at the root of document `doc`.
    pub(crate) fn root_placement(&self, doc: usize) -> Option<Placement<'t>>
        ensures { option_map row_agrees.placement_view result ≡
            spec.placement_at doc [] (cut_of self.now) }
    {
        match self.no_rows(doc) {
            Some(place) => Some(Placement::NoRows(place)),
            None => {
                let walk = self.walk(doc)?;
                let text = self.whole();
                Some(rows_placement(walk.rows, text, walk.document))
            }
        }
    }

    /// The rows of the item or entry to which steps lead in document `doc`.
    #[inline(always)]
    fn entry_at(&self, doc: usize, steps: &[Step]) -> Option<RowsOfEntry>
        ensures { option_map reading.as_numbers result ≡
            reading.numbers_at doc (map tree_step steps.now) (cut_of self.now) }
    {
        let walk = self.walk(doc)?;
        entry_along(&walk, steps)
    }

    /// The rows of the item or entry at a path.
    #[inline(always)]
    pub(crate) fn entry(&self, path: &Path) -> Option<RowsOfEntry>
        ensures { option_map reading.as_numbers result ≡
            reading.numbers_at path.now.doc (steps_of path.now) (cut_of self.now) }
    {
        self.entry_at(path.doc, &path.steps)
    }

    /// The rows of the item or entry to which steps lead in document `doc`, with its key or dash and what that would
    /// hold if the rows under it ended before row `end`, if its line is the last one of its row.
    pub fn held_upto(
        &self,
        doc: usize,
        steps: &[Step],
        end: usize,
    ) -> Option<(RowsOfEntry, Held<'t>)>
        ensures { IfSome result (λ x. IsHeldUpto doc (map tree_step steps.now) (cut_of self.now) end
            x.0 (row_agrees.held_view x.1)) }
    {
        let text = self.whole();
        let entry = self.entry_at(doc, steps)?;
        if entry.dashes != entry.line {
            return None;
        }
        if end <= entry.row || end > entry.end {
            return None;
        }
        let upto = RowsOfEntry { end, ..entry };
        Some((entry, held_in(self.rows(), text, upto)))
    }

    /// The key or dash of the item or entry at a path, with what it holds, if its line is the last one
    /// of its row. The root has none, nor has what is in flow.
    pub fn held(&self, path: &Path) -> Option<Held<'t>>
        ensures { option_map row_agrees.held_view result ≡
            row_agrees.held_at path.now.doc (steps_of path.now) (cut_of self.now) }
    {
        let text = self.whole();
        let entry = self.entry(path)?;
        if entry.line != entry.dashes {
            return None;
        }
        Some(held_in(self.rows(), text, entry))
    }

    /// The column of the row that the entry or item at a path begins, and the run of comment lines above
    /// it, where its head comment is or would be. The root has none, nor has what is in flow, nor what
    /// begins after a dash.
    pub fn lines_above(&self, path: &Path) -> Option<(usize, TextPiece<'t>)>
        ensures { option_map (λ x. (x.0, row_agrees.piece_view x.1)) result ≡
            comments.lines_above path.now.doc (steps_of path.now) (cut_of self.now) }
    {
        self.lines_above_from(path, None)
    }

    /// The same, where the line of the entry or item may be known.
    pub fn lines_above_from(
        &self,
        path: &Path,
        line: Option<Position>,
    ) -> Option<(usize, TextPiece<'t>)>
        requires { IfSome line (IsLineOf path.now (cut_of self.now)) }
        ensures { option_map (λ x. (x.0, row_agrees.piece_view x.1)) result ≡
            comments.lines_above path.now.doc (steps_of path.now) (cut_of self.now) }
    {
        let whole = self.whole();
        let at = self.line_from(path, line)?;
        if at.line != 0 {
            return None;
        }
        let start = row_start(self.rows, at.row);
        let row = self.rows.row(at.row);
        let gap = row.gap();
        let column = row.column();
        Some((column, above(whole, start, gap)))
    }
}
