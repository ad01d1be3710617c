//! The split of the kept rows of a text, moved to a place in it.
ghost use Rattle.std.{specs.Prelude.{◌≡◌, ◌<◌, ◌≤◌, ◌^◌, OnOk, length, reverse}, specs.List.All};
ghost use Rattle.yq_text.specs.TextGapBuffer.{buffer_text};
ghost use Rattle.yq_rows.{specs.Following.IsPlacedIn, specs.Sides.{IsSplitAt, LastBefore, FirstFrom, first_byte}};
ghost use Rattle.yq_rows.specs.RowAnswers.{split_rows, rows_kept};

use std::alloc::AllocError;
use yq_row_table::{Offsets, Places};
use yq_text::TextGapBuffer;

/// Moves rows that begin at an offset or after it to the other side of the split.
fn to_after(
    front: &mut Vec<Offsets>,
    after: &mut Vec<Offsets>,
    len: usize,
    at: usize,
) -> Result<(), AllocError>
    requires small { len < 2 ^ 32 }
    requires within { All (λ o. o.start ≤ len) front.old.items }
    requires later { All (λ o. o.start ≤ len) after.old.items }
    ensures same { split_rows len front.new after.new ≡ split_rows len front.old after.old }
    ensures later { All (λ o. o.start ≤ len) after.new.items }
    ensures ok { OnOk result (LastBefore at front.new.items) }
{
    'rows: while front.len() > 0 {
        let row = front[front.len() - 1];
        if row.start() < at {
            return Ok(());
        }
        after.push(row.turned(len))?;
        let _ = front.pop();
    }
    Ok(())
}

/// Moves rows that begin in front of an offset to the front of the split.
fn to_front(
    front: &mut Vec<Offsets>,
    after: &mut Vec<Offsets>,
    len: usize,
    at: usize,
) -> Result<(), AllocError>
    requires small { len < 2 ^ 32 }
    requires later { All (λ o. o.start ≤ len) after.old.items }
    requires last { LastBefore at front.old.items }
    ensures same { split_rows len front.new after.new ≡ split_rows len front.old after.old }
    ensures later { All (λ o. o.start ≤ len) after.new.items }
    ensures last { LastBefore at front.new.items }
    ensures ok { OnOk result (FirstFrom at len after.new.items) }
{
    'rows: while after.len() > 0 {
        let row = after[after.len() - 1].turned(len);
        if row.start() >= at {
            return Ok(());
        }
        front.push(row)?;
        let _ = after.pop();
    }
    Ok(())
}

/// Moves rows so that those that begin in front of an offset of a text of so many bytes are in front
/// of the split, and the others after it.
fn move_rows(places: &mut Places, len: usize, at: usize) -> Result<(), AllocError>
    requires small { len < 2 ^ 32 }
    requires within { All (λ o. o.start ≤ len) places.old.front.items }
    requires later { All (λ o. o.start ≤ len) places.old.after.items }
    ensures same { rows_kept len places.new ≡ rows_kept len places.old }
    ensures later { All (λ o. o.start ≤ len) places.new.after.items }
    ensures ends { places.new.ends ≡ places.old.ends }
    ensures ok { OnOk result (IsSplitAt at len places.new) }
{
    to_after(&mut places.front, &mut places.after, len, at)?;
    to_front(&mut places.front, &mut places.after, len, at)
}

/// Where the first of the rows after the split begins in a text of so many bytes, or where that ends.
pub(crate) fn begin_of(after: &[Offsets], len: usize) -> usize
    ensures { result ≡ first_byte len (reverse after.now) }
{
    match after {
        [.., row] => len.saturating_sub(row.start()),
        [] => len,
    }
}

/// Moves the split of the rows of a text: after it is the first row that begins at an offset or
/// after it.
///
/// # Errors
/// Lack of memory. The split is then somewhere between.
pub(crate) fn move_split(
    text: &TextGapBuffer,
    places: &mut Places,
    at: usize,
) -> Result<(), AllocError>
    requires { IsPlacedIn (buffer_text text.now) places.old }
    ensures placed { IsPlacedIn (buffer_text text.now) places.new }
    ensures ok { OnOk result (IsSplitAt at (length (buffer_text text.now)) places.new) }
{
    let len = text.len();
    let moved = move_rows(places, len, at);
    places.split = begin_of(places.after.as_slice(), len);
    moved
}
