//! The ends of the parts of a text, on both sides of a split among them.
ghost use Rattle.std.specs.Prelude.{◌≡◌, ◌≤◌, ◌<◌, ◌+◌, ◌-◌, ◌^◌, ◌++◌, [], IfSome, OnErr, OnOk, length, map, slice_get, slice_set, take};
ghost use Rattle.std.{specs.List.Sorted.{IsNonDecreasingBy, IsPartitionPoint}, specs.Vec.{vec_capacity, vec_len}};
ghost use Rattle.yq_row_table.specs.PartEnds as spec;

use crate::ends::{EndPlace, Measure, Shift};
use std::alloc::{AllocError, Global};
use std::marker::Model;

/// The ends of the parts of a text, on both sides of a split among them. Those after it are shifted all at
/// once, so that they stay as they are where others in front of them come or go.
#[derive(Drop)]
pub struct PartEnds {
    /// Those in front of the split.
    front: Vec<EndPlace>,
    /// Those after it, the last one first, each as it is before the shift.
    after: Vec<EndPlace>,
    shift: Shift,
}

impl Model for PartEnds {
    ghost use Rattle.std.specs.Prelude.{List};
    ghost use Rattle.yq_row_table.specs.declared.ends.EndPlace.{EndPlace};
    ghost use Rattle.yq_row_table.specs.PartEnds.{both_ends};

    ghost Value = { List EndPlace };

    ghost view = { λ e. both_ends e.shift e.front.items e.after.items };
}

/// Moves ends to the other side of the split, until no more than so many are in front of it.
fn to_after(
    front: &mut Vec<EndPlace>,
    after: &mut Vec<EndPlace>,
    shift: Shift,
    at: usize,
) -> Result<(), AllocError>
    ensures same { spec.both_ends shift front.new.items after.new.items ≡
        spec.both_ends shift front.old.items after.old.items }
    ensures ok { OnOk result (length front.new.items ≤ at) }
{
    let back = Shift::between(shift.rows, shift.bytes as usize, 0, 0);
    'ends: while front.len() > at {
        let end = front[front.len() - 1];
        after.push(end.shifted(back))?;
        let _ = front.pop();
    }
    Ok(())
}

/// Moves ends to the front of the split, until so many are there.
fn to_front(
    front: &mut Vec<EndPlace>,
    after: &mut Vec<EndPlace>,
    shift: Shift,
    at: usize,
) -> Result<(), AllocError>
    requires few { length front.old.items ≤ at }
    requires within { at ≤ length (spec.both_ends shift front.old.items after.old.items) }
    ensures same { spec.both_ends shift front.new.items after.new.items ≡
        spec.both_ends shift front.old.items after.old.items }
    ensures ok { OnOk result (length front.new.items ≡ at) }
{
    'ends: while front.len() < at {
        let end = after[after.len() - 1];
        front.push(end.shifted(shift))?;
        let _ = after.pop();
    }
    Ok(())
}

/// Moves the split in front of the end of a part, counted from 0, or after the last one.
fn move_split(
    front: &mut Vec<EndPlace>,
    after: &mut Vec<EndPlace>,
    shift: Shift,
    at: usize,
) -> Result<(), AllocError>
    requires { at ≤ length (spec.both_ends shift front.old.items after.old.items) }
    ensures same { spec.both_ends shift front.new.items after.new.items ≡
        spec.both_ends shift front.old.items after.old.items }
    ensures ok { OnOk result (length front.new.items ≡ at) }
{
    to_after(front, after, shift, at)?;
    to_front(front, after, shift, at)
}

/// Adds others, shifted; there is room for them.
fn push_shifted(ends: &mut Vec<EndPlace>, found: &PartEnds, by: Shift)
    requires room { vec_len ends.old + length found.now ≤ vec_capacity ends.old }
    ensures { ends.new.items ≡ ends.old.items ++ map (spec.shifted by) found.now }
{
    'ends: for i in 0..found.len() {
        let end = found.at(i).shifted(by);
        ends.push(end).unwrap();
    }
}

impl PartEnds {
    /// None.
    pub fn new(alloc: Global) -> PartEnds
        ensures { result ≡ [] }
    {
        PartEnds::of(alloc, Vec::new(alloc))
    }

    /// Those that were read, in front of the split. No memory is asked for.
    pub fn of(alloc: Global, ends: Vec<EndPlace>) -> PartEnds
        ensures { result ≡ ends.items }
    {
        PartEnds {
            front: ends,
            after: Vec::new(alloc),
            shift: Shift { rows: 0, bytes: 0 },
        }
    }

    /// How many there are.
    #[inline]
    pub fn len(&self) -> usize
        ensures { result ≡ length self.now }
    {
        self.front.len() + self.after.len()
    }

    /// The end at an index.
    #[inline]
    pub fn at(&self, i: usize) -> EndPlace
        requires { i < length self.now }
        ensures { slice_get self.now i ≡ Some result }
    {
        if i < self.front.len() {
            return self.front[i];
        }
        self.after[self.after.len() - 1 - (i - self.front.len())].shifted(self.shift)
    }

    /// The end at an index, if there is one.
    pub fn get(&self, i: usize) -> Option<EndPlace>
        ensures end { result ≡ slice_get self.now i }
        ensures within { IfSome result (λ _. i + 1 < 2 ^ 64) }
    {
        if i < self.len() {
            Some(self.at(i))
        } else {
            None
        }
    }

    /// How many of the first ones have at most so many rows or bytes in front of them, where no end has fewer
    /// than the one before it.
    pub fn count_to(&self, by: Measure, most: usize) -> usize
        ensures within { result ≤ length self.now }
        ensures count { IsNonDecreasingBy (spec.measure_of by) self.now →
            IsPartitionPoint (λ e. spec.measure_of by e ≤ most) (λ e. most < spec.measure_of by e) self.now result }
    {
        let mut low = 0;
        let mut high = self.len();
        'ends: while low < high {
            let middle = low + (high - low) / 2;
            if self.at(middle).measure(by) <= most {
                low = middle + 1;
            } else {
                high = middle;
            }
        }
        low
    }

    /// The last one is replaced by another one.
    pub fn set_last(&mut self, end: EndPlace)
        requires { 1 ≤ length self.old }
        ensures { self.new ≡ slice_set self.old (length self.old - 1) end }
    {
        if self.after.len() > 0 {
            let back = Shift::between(self.shift.rows, self.shift.bytes as usize, 0, 0);
            self.after[0] = end.shifted(back);
        } else {
            let last = self.front.len() - 1;
            self.front[last] = end;
        }
    }

    /// The last one goes; the time goes to those after the split.
    pub fn drop_last(&mut self)
        requires { 1 ≤ length self.old }
        ensures { self.new ≡ take (length self.old - 1) self.old }
    {
        if self.after.len() > 0 {
            let _ = self.after.remove(0);
        } else {
            let _ = self.front.pop();
        }
    }

    /// Ends from one on, up to another one, are replaced by others, which are shifted; and those after them are
    /// shifted. The time goes to what is replaced, to the others, and to the ends between the first one and
    /// where ends were replaced before.
    ///
    /// # Errors
    /// Lack of memory. The ends are then the same.
    pub fn exchange(
        &mut self,
        from: usize,
        to: usize,
        found: &PartEnds,
        place: Shift,
        later: Shift,
    ) -> Result<(), AllocError>
        requires order { from ≤ to }
        requires within { to ≤ length self.old }
        ensures ok { OnOk result (self.new ≡
            spec.ends_exchanged from to place later self.old found.now) }
        ensures err { OnErr result (self.new ≡ self.old) }
    {
        move_split(&mut self.front, &mut self.after, self.shift, from)?;
        self.front.reserve(found.len())?;
        push_shifted(&mut self.front, found, place);
        let left = self.after.len() - (to - from);
        self.after.truncate(left);
        self.shift = self.shift.then(later);
        Ok(())
    }
}
