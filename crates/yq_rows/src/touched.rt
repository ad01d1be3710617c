//! The rows and ends of parts that a change touches.
ghost use Rattle.std.specs.Prelude.{◌≡◌, ◌<◌, ◌≤◌, ◌^◌, slice_get};
ghost use Rattle.yq_rows.specs.RowAnswers.{has_more_than, IsTouchedIn};
ghost use Rattle.yq_rows.specs.Sides as spec;

use crate::kept::Kept;
use crate::{Side, side_after, side_before};
use yq_row_table::{EndPlace, PartEnds, Places};

/// The rows and ends of parts that a change touches.
#[derive(Clone, Copy)]
pub(crate) struct Touched {
    /// What is in front of them.
    pub front: Side,
    /// What is in front of those after them.
    pub old: Side,
    /// Whether others come after them.
    pub more: bool,
    /// The last of them, where that is the end of a part and the change keeps the line of its marker.
    pub marked: Option<EndPlace>,
}

/// Whether so many rows come before an end of a part, and the line of its marker, if there is one, ends
/// at an offset.
fn ends_at(end: EndPlace, rows: usize, at: usize) -> bool
    ensures { result ≡ spec.ends_at end rows at }
{
    end.rows == rows && end.marker() > 0 && end.stop() + end.marker() == at
}

/// The place after the end of a part that comes next after what is in front, where its marker's
/// line ends at an offset, at which a line begins; else what is in front.
fn past_end(ends: &PartEnds, front: Side, at: usize, begins: bool) -> Side
    ensures { result ≡ spec.past_end (slice_get ends.now front.ends) front at begins }
{
    if let Some(end) = ends.get(front.ends)
        && begins
        && ends_at(end, front.rows, at)
    {
        return Side {
            rows: front.rows,
            ends: front.ends + 1,
            bytes: at,
        };
    }
    front
}

/// Whether so many rows come before an end of a part, and the line of its marker, if there is one, begins
/// at an offset or after it.
fn keeps_marker(end: EndPlace, rows: usize, at: usize) -> bool
    ensures { result ≡ spec.keeps_marker end rows at }
{
    end.rows == rows && end.marker() > 0 && at <= end.stop()
}

/// The last end of a part among those that a change touches, where no row comes after it there and the
/// line of its marker begins at an offset or after it.
fn marked_end(ends: &PartEnds, front: Side, old: Side, at: usize) -> Option<EndPlace>
    ensures { result ≡ spec.marked_end ends.now front old at }
{
    if old.ends <= front.ends {
        return None;
    }
    let end = ends.get(old.ends - 1)?;
    if keeps_marker(end, old.rows, at) {
        Some(end)
    } else {
        None
    }
}

/// Whether rows or ends of parts come after others.
fn has_more(places: &Places, old: Side) -> bool
    ensures { result ≡ has_more_than old places.now }
{
    places.len() > old.rows || places.ends.len() > old.ends
}

/// The rows and ends of parts that a change of a text of `len` bytes touches; the split is where the
/// first byte is that the change doesn't keep. An end in front of that byte is none of them where the
/// line of its marker ends there, and a line begins.
pub(crate) fn find_touched(places: &Places, len: usize, kept: Kept, begins: bool) -> Touched
    requires small { len < 2 ^ 32 }
    requires within { kept.back ≤ len }
    requires split { spec.IsSplitAt kept.front len places.now }
    ensures { IsTouchedIn len begins kept places.now result }
{
    let before = side_before(places, kept.front);
    let front = past_end(&places.ends, before, kept.front, begins);
    let old = side_after(places, len, kept.back);
    Touched {
        front,
        old,
        more: has_more(places, old),
        marked: marked_end(&places.ends, front, old, len - kept.back),
    }
}
