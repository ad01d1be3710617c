//! Rows that go from the end of a text, after one that stays as it was read.
ghost use Rattle.std.specs.Prelude.{◌≡◌, ◌≤◌, ◌<◌, ◌+◌, ◌-◌, ◌^◌, IfSome, IsTrue, None, [], drop, false, length, slice_set, take};
ghost use Rattle.std.specs.Str.{IsCharBoundary};
ghost use Rattle.yq_text.specs.TextGapBuffer.{buffer_text};
ghost use Rattle.yq_rows.{specs.Dropping.DropsLast, specs.RowAnswers.CountsLines};

use crate::kept::Kept;
use crate::split::begin_of;
use crate::touched::Touched;
use crate::{Meter, count_lines};
use yq_row_table::{EndPlace, Places};
use yq_text::TextGapBuffer;

/// Whether more than so many rows come before the end of a text, and neither a gap nor a marker.
fn is_bare(end: EndPlace, rows: usize) -> bool
    ensures rows { IsTrue result → rows < end.rows }
    ensures gap { IsTrue result → end.gap ≡ 0 }
    ensures marker { IsTrue result → end.marker ≡ 0 }
{
    rows < end.rows && end.marker() == 0 && end.stop() == end.start()
}

/// Whether a change keeps no bytes at the end of a text, and of the rows and ends in front of the split
/// it touches the last row alone.
fn touches_last(places: &Places, touched: Touched, kept: Kept) -> bool
    ensures back { IsTrue result → kept.back ≡ 0 }
    ensures more { IsTrue result → touched.more ≡ false }
    ensures marked { IsTrue result → touched.marked ≡ None }
    ensures ends { IsTrue result → touched.front.ends + 1 ≡ length places.now.ends }
    ensures rows { IsTrue result → touched.front.rows + 1 ≡ length places.now.front.items }
{
    kept.back == 0
        && !touched.more
        && touched.marked.is_none()
        && places.ends.len().saturating_sub(touched.front.ends) == 1
        && places.front.len().saturating_sub(touched.front.rows) == 1
}

/// The end of a text of `len` bytes once its last rows are gone, where a change takes them away and touches
/// nothing in front of them but a row that ends where they begin, at the split.
pub(crate) fn end_dropped(
    places: &Places,
    len: usize,
    touched: Touched,
    kept: Kept,
) -> Option<EndPlace>
    requires small { len < 2 ^ 32 }
    requires within { kept.front ≤ len }
    ensures { IfSome result (DropsLast places.now len touched kept) }
{
    if !touches_last(places, touched, kept) {
        return None;
    }
    let end = places.ends.get(touched.front.ends)?;
    let rows = places.front.len();
    if !is_bare(end, rows) || begin_of(places.after.as_slice(), len) != kept.front {
        return None;
    }
    Some(end.moved(rows, kept.front))
}

/// The rows after the split go, and the last end of a part is replaced by another one.
pub(crate) fn drop_rows(places: &mut Places, end: EndPlace, at: usize)
    requires { 1 ≤ length places.old.ends }
    ensures front { places.new.front.items ≡ places.old.front.items }
    ensures after { places.new.after.items ≡ [] }
    ensures ends { places.new.ends ≡
        slice_set places.old.ends (length places.old.ends - 1) end }
    ensures split { places.new.split ≡ at }
{
    places.ends.set_last(end);
    places.after.truncate(0);
    places.split = at;
}

/// The bytes from a place on go, and the lines of those between another place and it are counted.
pub(crate) fn drop_text(text: &mut TextGapBuffer, from: usize, at: usize, meter: &mut Meter)
    requires begin { IsCharBoundary (take at (buffer_text text.old)) from }
    requires end { IsCharBoundary (buffer_text text.old) at }
    ensures text { buffer_text text.new ≡ take at (buffer_text text.old) }
    ensures counted { CountsLines meter.old meter.new (drop from (take at (buffer_text text.old))) }
{
    text.move_split(at);
    let halves = text.halves();
    count_lines(halves.front.split_at(from).1, meter);
    let gone = halves.back.len();
    text.exchange(gone, "");
}
