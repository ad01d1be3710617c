//! Where the rows of a text and the ends of its parts are, kept without the text.
ghost use Rattle.std.specs.Prelude.{◌≡◌, ◌<◌, ◌^◌, ℕ, [], Some, length, slice_get};
ghost use Rattle.yq_text.specs.Halves.{whole};
ghost use Rattle.yq_row_table.{specs.Grammar.IsCut, specs.Items.view_of_items, specs.Kept.{IsPlaced, kept_rows, placed_rows}};
ghost use Rattle.yq_row_table.{specs.Rows.Cut, specs.View.rows_view};

use crate::offsets::Offsets;
use crate::part_ends::PartEnds;
use crate::rows::Rows;
use std::alloc::Global;
use yq_text::Halves;

/// Where the rows of a text and the ends of its parts are, on both sides of a split of the text, which
/// is between two of them. Rows in front of it are kept by how far from the text's beginning they are,
/// those after it by how far from its end, the last one first: so that rows stay as they are where the
/// text changes between the two. The ends of parts have a split of their own.
#[derive(Drop)]
pub struct Places {
    /// The rows in front of the split, each by how far from the beginning of the text it begins.
    pub front: Vec<Offsets>,
    /// The rows after the split, the last one first, each by how far from the end of the text it begins.
    pub after: Vec<Offsets>,
    /// The ends of all parts, in order.
    pub ends: PartEnds,
    /// How many bytes of the text are in front of the split.
    pub split: usize,
}

impl Places {
    /// No rows, and no ends of parts.
    pub fn new(alloc: Global) -> Places
        ensures { IsPlaced result (view_of_items []) }
    {
        Places {
            front: Vec::new(alloc),
            after: Vec::new(alloc),
            ends: PartEnds::new(alloc),
            split: 0,
        }
    }

    /// How many rows there are.
    pub fn len(&self) -> usize
        ensures { result ≡ length (kept_rows self.now) }
    {
        self.front.len() + self.after.len()
    }

    /// Where row `i`, counted from 0, is, as it is kept.
    #[inline]
    pub(crate) fn kept(&self, i: usize) -> &Offsets
        requires { i < length (kept_rows self.now) }
        ensures { slice_get (kept_rows self.now) i ≡ Some result.now }
    {
        if i < self.front.len() {
            &self.front[i]
        } else {
            &self.after[self.after.len() - 1 - (i - self.front.len())]
        }
    }

    /// Where row `i`, counted from 0, is in the text of so many bytes.
    pub fn place(&self, i: usize, len: usize) -> Offsets
        requires small { len < 2 ^ 32 }
        requires within { i < length (kept_rows self.now) }
        ensures { slice_get (placed_rows len self.now) i ≡ Some result }
    {
        if i < self.front.len() {
            return self.front[i];
        }
        self.after[self.after.len() - 1 - (i - self.front.len())].turned(len)
    }

    /// The rows of the text in which they are, borrowed in two halves at the split.
    pub fn rows<'t>(self, text: Halves<'t>) -> Rows<'t>
        requires split { length text.front.now ≡ self.split }
        requires placed { (c : Cut) × IsCut (whole text) c × IsPlaced self (rows_view c) }
        ensures { (c : Cut) → IsCut (whole text.entry) c → result ≡ rows_view c }
    {
        Rows::of(text, self)
    }
}
