//! A text in three pieces.
ghost use Rattle.std.{specs.Prelude.{◌≡◌, ◌≤◌, ◌-◌, drop, take}, specs.Str.IsCharBoundary};
ghost use Rattle.yq_text.specs.Halves.{whole};
ghost use Rattle.yq_places.{specs.LineReading.{CutsBetween, LiesBetween}, specs.PlacementViews.pieces_view};

use crate::places::halves::is_text;
use yq_text::Halves;

/// A text in three pieces, of which the second one begins and ends at these places.
pub fn cut_at<'t>(
    text: Halves<'t>,
    start: usize,
    end: usize,
) -> (Halves<'t>, Halves<'t>, Halves<'t>)
    requires order { start ≤ end }
    requires start { IsCharBoundary (whole text) start }
    requires end { IsCharBoundary (drop start (whole text)) (end - start) }
    ensures before { whole result.0 ≡ take start (whole text.entry) }
    ensures middle { whole result.1 ≡ take (end - start) (drop start (whole text.entry)) }
    ensures after { whole result.2 ≡ drop (end - start) (drop start (whole text.entry)) }
{
    let (before, rest) = text.split_at(start);
    let (middle, after) = rest.split_at(end - start);
    (before, middle, after)
}

/// A text in three pieces, of which the first and the last one are these.
pub fn cut_between<'t>(
    text: Halves<'t>,
    before: Halves<'_>,
    after: Halves<'_>,
) -> (Halves<'t>, Halves<'t>, Halves<'t>)
    requires { LiesBetween (whole text) (whole before) (whole after) }
    ensures { CutsBetween text.entry before.entry after.entry
        (pieces_view result.0 result.1 result.2) }
{
    is_text(after);
    cut_at(text, before.len(), text.len() - after.len())
}
