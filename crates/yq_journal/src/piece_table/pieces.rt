//! Pieces of bytes before and after a cursor.
ghost use Rattle.std.specs.Prelude.{◌≡◌, ◌↔◌, ◌+◌, ◌≤◌, ◌++◌, IsTrue, OnOk, length};
ghost use Rattle.yq_journal.specs.PieceTable.{forward_bytes, backward_bytes, cut_bytes, pieces_length, TakesOff, NeedsOthers};

use std::alloc::AllocError;

/// Moves so many bytes from the pieces after a cursor to those before it.
pub(crate) fn move_on<'t>(
    after: &mut Vec<&'t [u8]>,
    before: &mut Vec<&'t [u8]>,
    count: usize,
) -> Result<(), AllocError>
    requires { count ≤ length (backward_bytes after.old.items) }
    ensures bytes { OnOk result (cut_bytes before.new after.new ≡ cut_bytes before.old after.old) }
    ensures count { OnOk result (pieces_length before.new ≡ pieces_length before.old + count) }
{
    let mut left = count;
    'pieces: while left > 0 {
        let Some(piece) = after.pop() else {
            return Ok(());
        };
        if left < piece.len() {
            after.push(&piece[left..])?;
            before.push(&piece[..left])?;
            return Ok(());
        }
        before.push(piece)?;
        left -= piece.len();
    }
    Ok(())
}

/// Moves so many bytes from the pieces before a cursor to those after it.
pub(crate) fn move_back<'t>(
    before: &mut Vec<&'t [u8]>,
    after: &mut Vec<&'t [u8]>,
    count: usize,
) -> Result<(), AllocError>
    requires { count ≤ length (forward_bytes before.old.items) }
    ensures bytes { OnOk result (cut_bytes before.new after.new ≡ cut_bytes before.old after.old) }
    ensures count { OnOk result (pieces_length before.new + count ≡ pieces_length before.old) }
{
    let mut left = count;
    'pieces: while left > 0 {
        let Some(piece) = before.pop() else {
            return Ok(());
        };
        if left < piece.len() {
            let kept = piece.len() - left;
            before.push(&piece[..kept])?;
            after.push(&piece[kept..])?;
            return Ok(());
        }
        after.push(piece)?;
        left -= piece.len();
    }
    Ok(())
}

/// Whether bytes are the same.
fn is_same(bytes: &[u8], others: &[u8]) -> bool
    ensures { IsTrue result ↔ (bytes.now ≡ others.now) }
{
    bytes == others
}

/// Takes bytes away that come first after a cursor, where these are there.
pub(crate) fn take_off<'t>(after: &mut Vec<&'t [u8]>, bytes: &[u8]) -> Result<bool, AllocError>
    ensures there { TakesOff result after.old after.new bytes.now }
    ensures other { NeedsOthers result after.old bytes.now }
{
    let mut left = bytes;
    'pieces: while !left.is_empty() {
        let Some(piece) = after.pop() else {
            return Ok(false);
        };
        if left.len() < piece.len() {
            after.push(&piece[left.len()..])?;
            return Ok(is_same(&piece[..left.len()], left));
        }
        if !is_same(&left[..piece.len()], piece) {
            return Ok(false);
        }
        left = &left[piece.len()..];
    }
    Ok(true)
}

/// Adds the bytes of pieces, in their order.
pub(crate) fn add_all(text: &mut Vec<u8>, pieces: &[&[u8]]) -> Result<(), AllocError>
    ensures { OnOk result (text.new.items ≡ text.old.items ++ forward_bytes pieces.now) }
{
    'pieces: for piece in pieces {
        text.extend_from_slice(*piece)?;
    }
    Ok(())
}
