//! Where the rows of a text are in it.
ghost use Rattle.std.specs.Prelude.{◌≡◌, ◌<◌, ◌+◌, ◌-◌, ◌^◌};
ghost use Rattle.yq_row_table.{specs.Kept.{raised, row_from_end}, specs.RowStarts.row_level, specs.View.{Slices, row_view}};
ghost use Rattle.yq_row_table.specs.Offsets as spec;

mod pieces;

use crate::bounds::before_column;
use crate::row::Row;
use std::mem::size_of;

/// Where a row begins in its text, and how long its pieces are, in bytes, each below the limit of a
/// text's length, which a `u32` holds. It takes 48 bytes, a `Row` 176.
#[derive(Clone, Copy)]
pub struct Offsets {
    pub start: u32,
    pub gap: u32,
    pub column: u32,
    pub dashes: u32,
    pub key: u32,
    pub colon: u32,
    pub space: u32,
    pub anchor: u32,
    pub apart: u32,
    pub head: u32,
    pub tail: u32,
    pub raw: u32,
}

const _: () = prove!(size_of::<Offsets>() == 48);

impl Offsets {
    /// The same place in a text of so many bytes, measured from its other end.
    pub fn turned(self, len: usize) -> Offsets
        requires { len < 2 ^ 32 }
        ensures { result ≡ row_from_end len self }
    {
        Offsets {
            start: (len as u32).saturating_sub(self.start),
            ..self
        }
    }

    /// The same row where so many bytes more come before it.
    pub fn raised(self, by: usize) -> Offsets
        requires { self.start + by < 2 ^ 32 }
        ensures { result ≡ raised by self }
    {
        Offsets {
            start: self.start + by as u32,
            ..self
        }
    }

    /// How many bytes come before the row, with its gap.
    #[inline]
    pub fn start(&self) -> usize
        ensures { result ≡ self.now.start }
    {
        self.start as usize
    }

    /// How deep the row begins.
    #[inline]
    pub(crate) fn level(&self) -> usize
        ensures { (s : Slices) → self.now ≡ spec.offsets_of self.now.start s → result ≡
            row_level s }
    {
        let mark = if self.dashes > 0 {
            3
        } else if self.colon > 0 {
            2
        } else {
            1
        };
        3 * self.column as usize + mark
    }

    /// The parent indentation of what comes after the row's mark: the column of its key, else one
    /// column less than its indentation and its dashes take.
    pub(crate) fn parent(&self) -> i64
        ensures { result ≡ spec.parent_by (self.now.column + self.now.dashes) self.now.colon }
    {
        let columns = self.column as usize + self.dashes as usize;
        if self.colon == 0 {
            before_column(columns)
        } else {
            columns as i64
        }
    }

    /// The row in front of a text.
    #[tactic(auto, unfolding(crate::specs::Offsets::pieces_of))]
    pub(crate) fn row<'t>(&self, text: &'t str) -> Row<'t>
        requires { spec.AreCuts text.now (spec.lengths self.now) }
        ensures { row_view result ≡ spec.pieces_of text.now self.now }
    {
        let (gap, text) = text.split_at(self.gap as usize);
        let text = text.split_at(self.column as usize).1;
        let (dashes, text) = text.split_at(self.dashes as usize);
        let (key, text) = text.split_at(self.key as usize);
        let (colon, text) = text.split_at(self.colon as usize);
        let (space, text) = text.split_at(self.space as usize);
        let (anchor, text) = text.split_at(self.anchor as usize);
        let (apart, text) = text.split_at(self.apart as usize);
        let (head, text) = text.split_at(self.head as usize);
        let (tail, text) = text.split_at(self.tail as usize);
        let raw = text.split_at(self.raw as usize).0;
        Row {
            gap,
            column: self.column,
            dashes,
            key,
            colon,
            space,
            anchor,
            apart,
            head,
            tail,
            raw,
            parent: self.parent(),
        }
    }
}
