//! Lines above rows, where head comments are or would be.
ghost use Rattle.std.specs.Prelude.{◌≡◌};
ghost use Rattle.yq_text.specs.Halves.{whole};
ghost use Rattle.yq_places.{specs.LineReading.GapIsThere, specs.PlacementViews.piece_view};
ghost use Rattle.yq_places.specs.CommentPlaces as spec;

use crate::places::piece::TextPiece;
use yq_documents::last_run;
use yq_text::Halves;

/// The run of comment lines, if there is one, that ends the gap from a place on, with its breaks.
pub fn above<'d>(text: Halves<'d>, start: usize, gap: &'d str) -> TextPiece<'d>
    requires gap { GapIsThere (whole text) start gap.now }
    ensures { (h : GapIsThere (whole text.entry) start gap.now) →
        piece_view result ≡ spec.gap_above h.before gap.now h.rest }
{
    let run = last_run(gap);
    let end = start + gap.len();
    let (front, after) = text.split_at(end);
    let (before, _) = front.split_at(end - run.len());
    TextPiece {
        before,
        text: run,
        after,
    }
}
