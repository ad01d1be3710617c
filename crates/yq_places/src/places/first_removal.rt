//! What is taken out of a text with the first item or entry of a compact collection.
ghost use Rattle.std.{specs.Prelude.{◌≡◌, ◌≤◌, ◌-◌, drop}, specs.Str.IsCharBoundary};
ghost use Rattle.yq_text.specs.Halves.{whole};
ghost use Rattle.yq_places.{specs.LineReading.first_out_at, specs.PlacementViews.pieces_view};

use crate::places::halves::{begins_gap, is_text, split_end_spaces, split_line, split_spaces};
use crate::places::written::{cut_at, cut_between};
use yq_text::Halves;

/// The text before what is taken out with an item or entry, that, and the text after it, by where the item
/// or entry begins and ends.
pub fn first_out<'t>(
    text: Halves<'t>,
    start: usize,
    end: usize,
) -> (Halves<'t>, Halves<'t>, Halves<'t>)
    requires order { start ≤ end }
    requires start { IsCharBoundary (whole text) start }
    requires end { IsCharBoundary (drop start (whole text)) (end - start) }
    ensures { pieces_view result.0 result.1 result.2 ≡ first_out_at start end (whole text.entry) }
{
    let (before, own, after) = cut_at(text, start, end);
    is_text(own);
    let (line, next) = split_line(after);
    if begins_gap(next) {
        let (before, spaces) = split_end_spaces(before);
        is_text(spaces);
        return cut_between(text, before, after);
    }
    let (indent, rest) = split_spaces(next);
    is_text(line);
    is_text(indent);
    cut_between(text, before, rest)
}
