//! Rows and ends of parts that are replaced by others.
ghost use Rattle.std.{specs.Prelude.{◌≡◌, ◌<◌, ◌≤◌, ◌+◌, ◌^◌, ◌++◌, OnOk, OnErr, length, map, drop}, specs.List.All};
ghost use Rattle.std.specs.Vec.{vec_capacity, vec_len};
ghost use Rattle.yq_row_table.{specs.Kept.{kept_rows, placed_rows, raised}, specs.PartEnds.shift_between};
ghost use Rattle.yq_rows.{specs.Exchanging.{RowsExchanged, GivesWay, IsMovable, SamePlaces, joined_ends}, specs.Sides.origin};

use crate::Side;
use crate::session_reading::NewRows;
use crate::touched::Touched;
use std::alloc::AllocError;
use yq_row_table::{Offsets, PartEnds, Places, Shift};

/// How ends of parts that came after one place come after another.
fn shift(from: Side, to: Side) -> Shift
    requires from { from.bytes < 2 ^ 32 }
    requires to { to.bytes < 2 ^ 32 }
    ensures { result ≡ shift_between from.rows from.bytes to.rows to.bytes }
{
    Shift::between(from.rows, from.bytes, to.rows, to.bytes)
}

/// Ends of parts are replaced by those that were found, and those after are moved.
fn exchange_ends(
    ends: &mut PartEnds,
    found: &PartEnds,
    front: Side,
    old: Side,
    new: Side,
) -> Result<(), AllocError>
    requires order { front.ends ≤ old.ends }
    requires within { old.ends ≤ length ends.old }
    requires found { All (IsMovable origin front) found.now }
    requires after { All (IsMovable old new) (drop old.ends ends.old) }
    requires small { front.bytes < 2 ^ 32 × old.bytes < 2 ^ 32 × new.bytes < 2 ^ 32 }
    ensures ok { OnOk result (ends.new ≡ joined_ends front old new ends.old found.now) }
    ensures err { OnErr result (ends.new ≡ ends.old) }
{
    let origin = Side {
        rows: 0,
        ends: 0,
        bytes: 0,
    };
    ends.exchange(
        front.ends,
        old.ends,
        found,
        shift(origin, front),
        shift(old, new),
    )
}

/// Adds rows of a text of `len` bytes, before which so many more are; there is room for them.
fn push_rows(rows: &mut Vec<Offsets>, found: &Places, len: usize, by: usize)
    requires small { len < 2 ^ 32 }
    requires room { vec_len rows.old + length (kept_rows found.now) ≤ vec_capacity rows.old }
    requires within { All (λ o. o.start + by < 2 ^ 32) (placed_rows len found.now) }
    ensures { rows.new.items ≡ rows.old.items ++ map (raised by) (placed_rows len found.now) }
{
    'rows: for i in 0..found.len() {
        let row = found.place(i, len).raised(by);
        rows.push(row).unwrap();
    }
}

/// Rows and ends of parts that a change touches are replaced by those that were read; those after them are
/// after these, and the split is between the two.
pub(crate) fn exchange(
    places: &mut Places,
    touched: Touched,
    come: &NewRows,
) -> Result<(), AllocError>
    requires { GivesWay places.old touched come.now }
    ensures ok { OnOk result (RowsExchanged places.old touched come.now places.new) }
    ensures err { OnErr result (SamePlaces places.old places.new) }
{
    let Touched { front, old, .. } = touched;
    let kept = places.len() - old.rows;
    let rows = come.places.len();
    places.front.reserve(rows)?;
    let new = Side {
        rows: front.rows + rows,
        ends: 0,
        bytes: front.bytes + come.len,
    };
    exchange_ends(&mut places.ends, &come.places.ends, front, old, new)?;
    places.front.truncate(front.rows);
    push_rows(&mut places.front, &come.places, come.read, front.bytes);
    places.after.truncate(kept);
    places.split = new.bytes;
    Ok(())
}
