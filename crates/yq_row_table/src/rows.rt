//! The rows of a text, kept by where they are.
ghost use Rattle.std.specs.Prelude.{◌≡◌, ◌<◌, ◌≤◌, ◌-◌, ℕ, List, drop, length, option_map, take, IfSome, Some, slice_get};
ghost use Rattle.yq_row_table.{specs.Grammar.IsCut, specs.Kept.{HavePlaces, IsPlaced, halves_view}};
ghost use Rattle.yq_row_table.{specs.Offsets.{AreCuts, lengths, pieces_of}, specs.Removal.{block_numbers, block_of}};
ghost use Rattle.yq_row_table.{specs.RowStarts.{part_end, row_level, row_start}, specs.Rows.{Cut, Row as RowOf}};
ghost use Rattle.yq_row_table.specs.View.{bound_view, bounds_at, rows_of, rows_view, row_view, RowsView, Slices};
ghost use Rattle.yq_row_table.specs.WordRows.{AreOtherRows, KnowOthers};
ghost use Rattle.yq_row_table.specs.Grammar as grammar;
ghost use Rattle.yq_row_table.specs.View as ends;

use crate::block::block_numbers_of;
use crate::ends::{Bound, Measure};
use crate::offsets::Offsets;
use crate::places::Places;
use crate::row::Row;
use std::marker::Model;
use yq_text::Halves;

/// A row that is no word row.
#[derive(Clone, Copy)]
pub struct Other {
    /// Its number, counted from 0.
    pub row: usize,
    /// How many collections are nested at most in its head, where this is known to be a flow collection that
    /// the text lends; else 0.
    pub depth: usize,
}

/// The rows of a text in two halves, and the gaps and markers that belong to no row. A row is kept by
/// where it is in one of the halves, and made anew each time.
#[derive(Drop)]
pub struct Rows<'t> {
    pub(crate) text: Halves<'t>,
    pub(crate) places: Places,
    /// The rows that are no word rows, in order, where they are known.
    pub(crate) others: Option<Vec<Other>>,
}

impl<'t> Model for Rows<'t> {
    ghost Value = { RowsView };

    ghost view = { λ r. halves_view r.text r.places };

    ghost invariant = { λ r. HavePlaces r.text r.places × KnowOthers r.text r.places r.others };
}

impl<'t> Rows<'t> {
    /// The rows that are at these places of a text in two halves.
    pub fn of(text: Halves<'t>, places: Places) -> Rows<'t>
        requires { HavePlaces text places }
        ensures { result ≡ halves_view text.entry places }
    {
        Rows {
            text,
            places,
            others: None,
        }
    }

    /// The same where it is known which of them are no word rows.
    pub fn with_others(text: Halves<'t>, places: Places, others: Vec<Other>) -> Rows<'t>
        requires places { HavePlaces text places }
        requires others { AreOtherRows (halves_view text places).rows 0 others.items }
        ensures { result ≡ halves_view text.entry places }
    {
        Rows {
            text,
            places,
            others: Some(others),
        }
    }

    /// The rows that are no word rows, in order, if they are known: the text of each other one lends what
    /// it spells.
    pub fn others(&self) -> Option<&[Other]>
        ensures { IfSome result (λ ns. AreOtherRows self.now.rows 0 ns.now) }
    {
        match &self.others {
            Some(others) => Some(others.as_slice()),
            None => None,
        }
    }

    /// Where they are, without the text.
    pub fn into_places(self) -> Places
        ensures { IsPlaced result self.entry }
    {
        self.places
    }

    /// How many rows there are.
    pub fn len(&self) -> usize
        ensures { result ≡ length self.now.rows }
    {
        self.places.len()
    }

    /// Where row `i`, counted from 0, is kept, and what is from there on in its half of the text.
    #[inline]
    pub(crate) fn found(&self, i: usize) -> (&Offsets, &'t str)
        requires { i < length self.now.rows }
        ensures cuts { AreCuts result.1.now (lengths result.0.now) }
        ensures row { slice_get self.now.rows i ≡ Some (pieces_of result.1.now result.0.now) }
    {
        let row = self.places.kept(i);
        if i < self.places.front.len() {
            return (row, self.text.front.split_at(row.start()).1);
        }
        let back = self.text.back;
        (row, back.split_at(back.len() - row.start()).1)
    }

    /// Row `i`, counted from 0.
    pub fn row(&self, i: usize) -> Row<'t>
        requires { i < length self.now.rows }
        ensures { slice_get self.now.rows i ≡ Some (row_view result) }
    {
        let (row, text) = self.found(i);
        row.row(text)
    }

    /// Where row `i` begins in the text, with its gap, in bytes.
    #[inline]
    pub fn start(&self, i: usize) -> usize
        requires { i < length self.now.rows }
        ensures { result ≡ row_start i self.now }
    {
        let start = self.places.kept(i).start();
        if i < self.places.front.len() {
            return start;
        }
        self.text.len() - start
    }

    /// How deep row `i` begins: three for each column, and 3 for a dash, 2 for a key, or 1 for a node
    /// itself.
    #[inline]
    pub fn level(&self, i: usize) -> usize
        requires { i < length self.now.rows }
        ensures { (s : Slices) → slice_get self.now.rows i ≡ Some s → result ≡ row_level s }
    {
        self.places.kept(i).level()
    }

    /// Whether the block scalar that row `i` holds keeps the empty lines at its end, and how far its text
    /// is indented, in columns; none where it holds no block scalar. Of its lines only those up to the
    /// first one that isn't blank are read.
    pub fn block(&self, i: usize) -> Option<(bool, usize)>
        requires { i < length self.now.rows }
        ensures { (t : List ℕ) (c : Cut) (r : RowOf) → IsCut t c → self.now ≡ rows_view c →
            slice_get (rows_of c) i ≡ Some r →
            option_map (λ b. (b.0, b.1)) result ≡ option_map block_numbers (block_of r.content) }
    {
        let row = self.row(i);
        block_numbers_of(row.head(), row.raw(), row.parent_indent())
    }

    /// How many parts there are: one more than markers.
    pub fn parts(&self) -> usize
        ensures { result ≡ length self.now.bounds }
    {
        self.places.ends.len()
    }

    /// Where part `i` ends, counted from 0.
    pub fn part(&self, i: usize) -> Bound<'t>
        requires { i < length self.now.bounds }
        ensures { slice_get self.now.bounds i ≡ Some (bound_view result) }
    {
        let end = self.places.ends.at(i);
        let start = end.start();
        let split = self.text.front.len();
        if start < split {
            return end.bound(self.text.front.split_at(start).1);
        }
        end.bound(self.text.back.split_at(start - split).1)
    }

    /// Where part `i` ends in the text, counted from 0, after its last gap, in bytes.
    pub fn part_end(&self, i: usize) -> usize
        requires { i < length self.now.bounds }
        ensures { (b : ends.Bound) → slice_get self.now.bounds i ≡ Some b → result ≡
            part_end i b self.now }
    {
        self.places.ends.at(i).stop()
    }

    /// The ends of the parts directly before row `i`'s gap; for `i` = `len`, those at the end: those of
    /// the parts from one on, up to another one. Before a row that isn't the first of its part there are
    /// none.
    pub fn rest(&self, i: usize) -> (usize, usize)
        ensures order { result.0 ≤ result.1 }
        ensures within { result.1 ≤ length self.now.bounds }
        ensures bounds { take (result.1 - result.0) (drop result.0 self.now.bounds) ≡
            bounds_at i self.now.bounds }
    {
        let ends = &self.places.ends;
        let to = ends.count_to(Measure::Rows, i);
        if i == 0 {
            return (0, to);
        }
        (ends.count_to(Measure::Rows, i - 1), to)
    }
}

/// Whether a document begins after the line of this marker (YAML 1.2.2,
/// section 9.1.2).
pub fn begins_document(marker: &[u8]) -> bool
    ensures { result ≡ grammar.begins_document marker.now }
{
    matches!(marker, [b'-', ..])
}
