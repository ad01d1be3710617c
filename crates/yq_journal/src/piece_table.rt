//! A text in pieces, on which splices are done one after the other.
ghost use Rattle.std.specs.Prelude.{◌≡◌, ◌≢◌, ◌+◌, ◌≤◌, None, IsTrue, IfOk, OnOk, length};
ghost use Rattle.yq_journal.specs.PieceTable.{HasCursor, LieIn, Reaches, exchanged_at, table_bytes};
ghost use Rattle.yq_journal.{specs.Turned.{flipped_if, ArePartedInto}, specs.ListAnswers.GivesItems};
ghost use Rattle.yq_text.specs.Splice.{all_done, flipped, lengths_done};

mod pieces;

use crate::piece_table::pieces::{add_all, move_back, move_on, take_off};
use std::alloc::{AllocError, Global};
use std::marker::Model;
use yq_text::Splice;

/// How many splices are done on the pieces of one text, which are joined then. A splice leaves two
/// pieces more at most, and may move each of them over the cursor.
const SPLICES_OF_A_TEXT: usize = 1024;

/// The bytes of a text as slices of it and of splices, at a cursor: the pieces before it, and those after
/// it, the last one first. To move the cursor takes a step for each piece between its old place and
/// its new one, however long these are.
#[derive(Drop)]
struct PieceTable<'t> {
    before: Vec<&'t [u8]>,
    after: Vec<&'t [u8]>,
    /// How many bytes are before the cursor.
    at: usize,
}

impl<'t> Model for PieceTable<'t> {
    ghost use Rattle.yq_journal.specs.PieceTable.{PieceTableView, forward_bytes, backward_bytes};

    ghost Value = { PieceTableView };

    ghost view = { λ t. record {
      before = forward_bytes t.before.items;
      after = backward_bytes t.after.items;
      at = t.at;
    } };
}

impl<'t> PieceTable<'t> {
    fn new(alloc: Global, text: &'t [u8]) -> Result<PieceTable<'t>, AllocError>
        ensures bytes { IfOk result (λ t. table_bytes t ≡ text.entry.now) }
        ensures placed { IfOk result (λ t. HasCursor t) }
    {
        let mut after = Vec::new(alloc);
        after.push(text)?;
        Ok(PieceTable {
            before: Vec::new(alloc),
            after,
            at: 0,
        })
    }

    /// Moves the cursor to so many bytes from the text's start.
    fn seek(&mut self, at: usize) -> Result<(), AllocError>
        requires placed { HasCursor self.old }
        requires within { at ≤ length (table_bytes self.old) }
        ensures bytes { OnOk result (table_bytes self.new ≡ table_bytes self.old) }
        ensures place { OnOk result (length self.new.before ≡ at) }
        ensures placed { OnOk result (HasCursor self.new) }
    {
        let here = self.at;
        self.at = at;
        if here <= at {
            return move_on(&mut self.after, &mut self.before, at - here);
        }
        move_back(&mut self.before, &mut self.after, here - at)
    }

    /// Puts the new bytes in the place of the old ones, where these are at the offset.
    fn exchange(&mut self, at: usize, old: &[u8], new: &'t [u8]) -> Result<bool, AllocError>
        requires placed { HasCursor self.old }
        requires lies { LieIn at old.now new.now (table_bytes self.old) }
        ensures done { Reaches result self.new (exchanged_at at old.now new.now (table_bytes self.old)) }
        ensures placed { IfOk result (λ done. IsTrue done → HasCursor self.new) }
    {
        self.seek(at)?;
        if !take_off(&mut self.after, old)? {
            return Ok(false);
        }
        self.before.push(new)?;
        self.at += new.len();
        Ok(true)
    }

    /// Does splices in order, where they apply.
    fn do_all(&mut self, splices: &'t [Splice]) -> Result<bool, AllocError>
        requires placed { HasCursor self.old }
        requires lie { lengths_done splices.now (length (table_bytes self.old)) ≢ None }
        ensures { Reaches result self.new (all_done splices.now (table_bytes self.old)) }
    {
        'splices: for splice in splices {
            if !self.exchange(splice.at as usize, &splice.old, &splice.new)? {
                return Ok(false);
            }
        }
        Ok(true)
    }

    /// Takes splices back, the last one first, where they apply.
    fn undo_all(&mut self, splices: &'t [Splice]) -> Result<bool, AllocError>
        requires placed { HasCursor self.old }
        requires lie { lengths_done (flipped splices.now) (length (table_bytes self.old)) ≢ None }
        ensures { Reaches result self.new (all_done (flipped splices.now) (table_bytes self.old)) }
    {
        let mut left = splices.len();
        'splices: while left > 0 {
            left -= 1;
            let splice = &splices[left];
            if !self.exchange(splice.at as usize, &splice.new, &splice.old)? {
                return Ok(false);
            }
        }
        Ok(true)
    }

    /// The whole text, which is about so long.
    fn into_text(self, alloc: Global, len: usize) -> Result<Vec<u8>, AllocError>
        ensures { IfOk result (λ text. text.items ≡ table_bytes self.entry) }
    {
        let PieceTable {
            before,
            mut after,
            ..
        } = self;
        after.reverse();
        let mut text = Vec::with_capacity(alloc, len)?;
        add_all(&mut text, &before)?;
        add_all(&mut text, &after)?;
        Ok(text)
    }
}

/// The text with few splices done in order, or taken back, the last one first, where they apply.
fn few_spliced(
    alloc: Global,
    splices: &[Splice],
    back: bool,
    text: &[u8],
) -> Result<Option<Vec<u8>>, AllocError>
    requires { lengths_done (flipped_if back splices.now) (length text.now) ≢ None }
    ensures { GivesItems result (all_done (flipped_if back splices.now) text.now) }
{
    let mut table = PieceTable::new(alloc, text)?;
    let done = if back {
        table.undo_all(splices)
    } else {
        table.do_all(splices)
    };
    if !done? {
        return Ok(None);
    }
    Ok(Some(table.into_text(alloc, text.len())?))
}

/// So many of the splices that come first, as they are done or taken back, and the others.
fn parted(splices: &[Splice], back: bool, count: usize) -> (&[Splice], &[Splice])
    requires { count ≤ length splices.now }
    ensures parts { ArePartedInto back splices.entry.now result.0.now result.1.now }
    ensures shorter { length result.1.now + count ≡ length splices.entry.now }
{
    if back {
        let (others, first) = splices.split_at(splices.len() - count);
        (first, others)
    } else {
        splices.split_at(count)
    }
}

/// The text with the splices done in order, or taken back, the last one first, where they apply.
pub(crate) fn spliced(
    alloc: Global,
    splices: &[Splice],
    back: bool,
    text: &[u8],
) -> Result<Option<Vec<u8>>, AllocError>
    requires { lengths_done (flipped_if back splices.now) (length text.now) ≢ None }
    ensures { GivesItems result (all_done (flipped_if back splices.now) text.now) }
{
    let (first, mut others) = parted(splices, back, splices.len().min(SPLICES_OF_A_TEXT));
    let Some(mut reached) = few_spliced(alloc, first, back, text)? else {
        return Ok(None);
    };
    'texts: while !others.is_empty() {
        let (next, more) = parted(others, back, others.len().min(SPLICES_OF_A_TEXT));
        match few_spliced(alloc, next, back, &reached)? {
            Some(bytes) => reached = bytes,
            None => return Ok(None),
        }
        others = more;
    }
    Ok(Some(reached))
}
