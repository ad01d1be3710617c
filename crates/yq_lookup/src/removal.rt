//! What is taken out of a text with an item or entry of a block collection.
ghost use Rattle.std.specs.Prelude.{◌≡◌, option_map};
ghost use Rattle.yq_places.specs.PlacementViews.{pieces_view};
ghost use Rattle.yq_documents.{specs.Located.steps_of, specs.Reading.cut_of};
ghost use Rattle.yq_places.specs.FirstPlaces as first;
ghost use Rattle.yq_places.specs.RemovalPlaces as spec;
ghost use Rattle.yq_places.specs.RemovalReading as reading;

use crate::cut_text::CutText;
use yq_documents::Path;
use yq_places::{LinesIn, Seam, first_out, own_rows, rows_out};
use yq_text::Halves;

impl<'t> CutText<'_, 't> {
    /// Where the rows of the item or entry at a path begin and end, after where those of its document
    /// begin.
    pub fn own(&self, path: &Path) -> Option<(usize, usize, usize)>
        ensures { option_map (λ m. (m.0, m.1, m.2)) result ≡
            reading.mark_counts path.now.doc (steps_of path.now) (cut_of self.now) }
    {
        let walk = self.walk(path.doc)?;
        own_rows(&walk, &path.steps)
    }

    /// What is taken out of the text with the item or entry at a path: the lines of the comment above
    /// it, and its rows, less the gap before the first one; with the seam of the gap after them. None,
    /// where its line is not the first one of a row, as in flow, or after another dash.
    pub fn removal(&self, path: &Path) -> Option<(LinesIn<'t>, Option<Seam>)>
        ensures { option_map (λ x. reading.removal_view x.0 x.1) result ≡
            spec.removal_place path.now.doc (steps_of path.now) (cut_of self.now) }
    {
        let whole = self.whole();
        let marks = self.own(path)?;
        Some(rows_out(self.rows(), whole, marks))
    }

    /// The text before what is taken out with the item or entry at a path, that, and the text after it, if it
    /// is the first one of a compact collection: up to the next one, if its line is the next one; else from after the dash
    /// to the end of the last line, before its break. None, where its line is the first one of a row, or
    /// it is in flow.
    pub fn first_removal(&self, path: &Path) -> Option<(Halves<'t>, Halves<'t>, Halves<'t>)>
        ensures { option_map (λ x. pieces_view x.0 x.1 x.2) result ≡
            first.first_removal path.now.doc (steps_of path.now) (cut_of self.now) }
    {
        let whole = self.whole();
        let at = self.row_line(path)?;
        if at.line == 0 {
            return None;
        }
        let span = self.entry_place(path)?;
        Some(first_out(whole, span.start, span.end))
    }
}
