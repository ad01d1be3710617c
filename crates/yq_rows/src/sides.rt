//! What is in front of what a change touches, and in front of what comes after that.
ghost use Rattle.std.{specs.List.Sorted.IsNonDecreasingBy, specs.Prelude.{◌≡◌, ◌<◌, ◌≤◌, ◌^◌, length, reverse}};
ghost use Rattle.yq_rows.specs.Sides as spec;

use yq_row_table::{Measure, Offsets, PartEnds, Places};

/// How many rows, ends of parts and bytes are in front of a place in a text.
#[derive(Clone, Copy)]
pub struct Side {
    pub rows: usize,
    pub ends: usize,
    pub bytes: usize,
}

/// How many ends of parts begin in front of an offset, where no end begins in front of the one before it.
fn ends_before(ends: &PartEnds, at: usize) -> usize
    ensures within { result ≤ length ends.now }
    ensures count { IsNonDecreasingBy (λ e. e.start) ends.now → result ≡
        spec.ends_before at ends.now }
{
    if at == 0 {
        return 0;
    }
    ends.count_to(Measure::Bytes, at - 1)
}

/// How many rows, of those kept last first, are nearer to the end of the text than so many bytes.
fn rows_nearer(after: &[Offsets], back: usize) -> usize
    ensures within { result ≤ length after.now }
    ensures count { result ≡ length (spec.nearer back (reverse after.now)) }
{
    let mut rest = after;
    'rows: while let [before @ .., row] = rest
        && row.start() >= back
    {
        rest = before;
    }
    rest.len()
}

/// What is in front of the last row or end of a part that begins in front of an offset, at which
/// the split is.
pub fn side_before(places: &Places, at: usize) -> Side
    ensures { spec.IsSideBefore places.now at result }
{
    let rows = places.front.len();
    let ends = ends_before(&places.ends, at);
    if ends > 0 {
        let end = places.ends.at(ends - 1);
        if end.rows >= rows {
            return Side {
                rows,
                ends: ends - 1,
                bytes: end.start(),
            };
        }
    }
    if rows == 0 {
        return Side {
            rows: 0,
            ends: 0,
            bytes: 0,
        };
    }
    Side {
        rows: rows - 1,
        ends,
        bytes: places.front[rows - 1].start(),
    }
}

/// What is in front of the first row or end of a part that is nearer than `back` bytes to the end of
/// the text, which has `len` bytes; the split is in front of it.
pub fn side_after(places: &Places, len: usize, back: usize) -> Side
    requires small { len < 2 ^ 32 }
    requires within { back ≤ len }
    ensures { spec.IsSideAfter places.now len back result }
{
    let rows = rows_nearer(places.after.as_slice(), back);
    let ends = ends_before(&places.ends, len - back + 1);
    let mut bytes = len;
    if rows > 0 {
        bytes = len.saturating_sub(places.after[rows - 1].start());
    }
    if ends < places.ends.len() {
        bytes = bytes.min(places.ends.at(ends).start());
    }
    Side {
        rows: places.front.len() + (places.after.len() - rows),
        ends,
        bytes,
    }
}
