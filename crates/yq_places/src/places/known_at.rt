//! The items on the way of a path from which walks may go on in other texts.
ghost use Rattle.std.specs.Prelude.{◌≡◌, ◌≤◌, length, take, IfSome, IsTrue};
ghost use Rattle.yq_row_table.{specs.Rows.Cut, specs.View.rows_view};
ghost use Rattle.yq_outline.{specs.Extents.IsRowsView, specs.RowWalk.{AreKnown, IsKnown}};
ghost use Rattle.yq_places.specs.RowWalk.{StaysKnown, StayKnown};

use yq_outline::KnownItem;
use yq_row_table::Rows;
use yq_row_walk::item_before;

/// Whether the row of an item that is known begins in front of so many bytes.
#[inline(always)]
fn is_before_offset(rows: &Rows<'_>, known: KnownItem, front: usize) -> bool
    requires known { IsKnown rows.now.rows known }
    requires rows_view { IsRowsView rows.now }
    ensures { IsTrue result → (c : Cut) → rows.now ≡ rows_view c → StaysKnown front c known }
{
    known.row < rows.len() && rows.start(known.row) < front
}

/// The item before one that is known, if there is one and its row begins in front of so many bytes.
fn before_and_known(rows: &Rows<'_>, known: KnownItem, front: usize) -> Option<KnownItem>
    requires known { IsKnown rows.now.rows known }
    requires rows_view { IsRowsView rows.now }
    ensures { IfSome result (λ k. (c : Cut) → rows.now ≡ rows_view c → StaysKnown front c k) }
{
    if known.row >= rows.len() {
        return None;
    }
    let before = item_before(rows, known)?;
    if is_before_offset(rows, before, front) {
        Some(before)
    } else {
        None
    }
}

/// How many of the first items that are known have rows that begin in front of so many bytes.
#[inline(always)]
fn count_before_offset(rows: &Rows<'_>, known: &[KnownItem], front: usize) -> usize
    requires known { AreKnown rows.now.rows known.now }
    requires rows_view { IsRowsView rows.now }
    ensures within { result ≤ length known.now }
    ensures stay { (c : Cut) → rows.now ≡ rows_view c → StayKnown front c (take result known.now) }
{
    let mut count = 0;
    'items: while count < known.len() {
        if !is_before_offset(rows, known[count], front) {
            return count;
        }
        count += 1;
    }
    count
}

/// Leaves of the items that are known the first ones whose rows begin in front of so many bytes, and in the
/// place of the next one the item before it, if that does.
#[inline(always)]
pub fn keep_before_offset(rows: &Rows<'_>, known: &mut Vec<KnownItem>, front: usize)
    requires known { AreKnown rows.now.rows known.old.items }
    requires rows_view { IsRowsView rows.now }
    ensures { (c : Cut) → rows.now ≡ rows_view c → StayKnown front c known.new.items }
{
    let count = count_before_offset(rows, known.as_slice(), front);
    if count == known.len() {
        return;
    }
    let before = before_and_known(rows, known[count], front);
    known.truncate(count);
    if let Some(item) = before {
        let _ = known.push(item);
    }
}
