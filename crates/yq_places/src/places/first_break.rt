//! The break that is written in a text.
ghost use Rattle.std.specs.Prelude.{◌≡◌};
ghost use Rattle.yq_text.specs.Halves.{whole};
ghost use Rattle.yq_places.specs.FirstBreak as spec;

use crate::places::halves::{split_break, split_line};
use yq_core::Break;
use yq_text::Halves;

/// The break at the end of the first line; LF where there is none.
pub fn break_of(text: Halves<'_>) -> Break
    ensures { result ≡ spec.first_break (whole text.entry) }
{
    let (line, _) = split_line(text);
    let (_, end) = split_break(line);
    if end.len() == 2 {
        Break::CrLf
    } else {
        Break::Lf
    }
}
