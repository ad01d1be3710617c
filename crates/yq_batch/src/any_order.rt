//! Runs in any order: the text and the splices that values make which are put one after the other at places that
//! are known.
ghost use Rattle.std.{specs.Prelude.{◌≡◌, ◌≤◌, true, IfOk, string_bytes}, specs.Str.IsCharBoundary};
ghost use Rattle.yq_text.specs.Halves.{whole};
ghost use Rattle.yq_batch.specs.OpenRuns as spec;
ghost use Rattle.yq_batch.specs.Slots as slots;

use crate::change::HeadChange;
use crate::run::{between, bytes_of, push_splice};
use crate::slots::{SlotPlace, Slots, moved};
use std::alloc::{AllocError, Global};
use yq_text::{Edited, Halves, Splice, TEXT_LIMIT};

/// What values put at places made of a text so far.
#[derive(Drop)]
pub(crate) struct SlotRun {
    pub(crate) slots: Slots,
    /// How long the text is then.
    pub(crate) size: usize,
    pub(crate) splices: Vec<Splice>,
}

impl SlotRun {
    /// A text comes at a place, after a lead; not where that is none of the places, something else was put there, or
    /// the text would be too large.
    fn put_text(
        &mut self,
        alloc: Global,
        text: Halves<'_>,
        place: SlotPlace,
        new: (&str, &str),
    ) -> Result<bool, AllocError>
        requires counts { slots.HasCounts self.old.slots }
        requires order { place.start ≤ place.end }
        requires start { IsCharBoundary (whole text) place.start }
        requires end { IsCharBoundary (whole text) place.end }
        ensures { IfOk result (λ b. b ≡ true → spec.HasOpened (whole text.entry) place
            new.entry.0.now new.entry.1.now self.old self.new) }
    {
        let (lead, written) = new;
        let Some((at, was)) = self.slots.put(alloc, place, lead, written)? else {
            return Ok(false);
        };
        let mut bytes = String::from_str(alloc, lead)?;
        bytes.push_str(written)?;
        let Some(size) = moved(self.size, was, bytes.len()) else {
            return Ok(false);
        };
        if size > TEXT_LIMIT {
            return Ok(false);
        }
        let old = bytes_of(alloc, between(text, place.start, place.end))?;
        push_splice(&mut self.splices, at, old, bytes.into_bytes())?;
        self.size = size;
        Ok(true)
    }

    /// The bytes of a place stay, and nothing else is put there.
    fn keep(
        &mut self,
        alloc: Global,
        text: Halves<'_>,
        place: SlotPlace,
    ) -> Result<bool, AllocError>
        requires counts { slots.HasCounts self.old.slots }
        requires order { place.start ≤ place.end }
        requires start { IsCharBoundary (whole text) place.start }
        requires end { IsCharBoundary (whole text) place.end }
        ensures { IfOk result (λ b. b ≡ true → spec.HasKept (whole text.entry) place self.old
            self.new) }
    {
        let old = between(text, place.start, place.end);
        let mut kept = String::from_str(alloc, old.front)?;
        kept.push_str(old.back)?;
        let put = self.slots.put(alloc, place, "", &kept)?;
        Ok(put.is_some())
    }

    /// What an operation changes comes at its place, or stays there, if it is an equal scalar.
    pub(crate) fn put(
        &mut self,
        alloc: Global,
        text: Halves<'_>,
        change: &HeadChange<'_>,
    ) -> Result<bool, AllocError>
        requires counts { slots.HasCounts self.old.slots }
        requires order { change.now.place.start ≤ change.now.place.end }
        requires start { IsCharBoundary (whole text) change.now.place.start }
        requires end { IsCharBoundary (whole text) change.now.place.end }
        ensures { IfOk result (λ b. b ≡ true →
            spec.OpensAt (whole text.entry) change.now self.old self.new) }
    {
        match &change.written {
            Some(written) => self.put_text(alloc, text, change.place, (change.lead, written)),
            None => self.keep(alloc, text, change.place),
        }
    }

    /// The lines of an entry come at the end of a mapping, after those that were put there, or what an operation
    /// changes in a row comes there.
    pub(crate) fn put_in_rows(
        &mut self,
        alloc: Global,
        text: Halves<'_>,
        change: &HeadChange<'_>,
    ) -> Result<bool, AllocError>
        requires counts { slots.HasCounts self.old.slots }
        requires order { change.now.place.start ≤ change.now.place.end }
        requires start { IsCharBoundary (whole text) change.now.place.start }
        requires end { IsCharBoundary (whole text) change.now.place.end }
        ensures { IfOk result (λ b. b ≡ true →
            spec.Lands (whole text.entry) change.now self.old self.new) }
    {
        if !change.place.more {
            return self.put(alloc, text, change);
        }
        match &change.written {
            Some(lines) => self.put_text(alloc, text, change.place, (lines, "")),
            None => Ok(false),
        }
    }
}

impl Slots {
    /// Writes what was put at the places, each after what comes before it in the text.
    fn write(&self, text: Halves<'_>, out: &mut String, done: &mut usize) -> Result<(), AllocError>
        requires edge { IsCharBoundary (whole text) done.old }
        requires places { spec.MayWrite (whole text) done.old (slots.slots_of self.now) }
        ensures { IfOk result (λ u. spec.HasWritten (whole text.entry) (slots.slots_of self.now)
            (string_bytes out.old) done.old (string_bytes out.new) done.new) }
    {
        match self {
            Slots::One(place, put) => {
                let Some(put) = put else {
                    return Ok(());
                };
                let kept = between(text, *done, place.start);
                out.push_str(kept.front)?;
                out.push_str(kept.back)?;
                out.push_str(put)?;
                *done = place.end;
                Ok(())
            }
            Slots::Two(left, _, _, _, right) => {
                left.write(text, out, done)?;
                right.write(text, out, done)
            }
        }
    }
}

/// The text that a run made, and its splices.
pub(crate) fn ended(alloc: Global, text: Halves<'_>, run: SlotRun) -> Result<Edited, AllocError>
    requires edge { IsCharBoundary (whole text) 0 }
    requires places { spec.MayWrite (whole text) 0 (slots.slots_of run.slots) }
    ensures text { IfOk result (λ e. spec.IsWritten text.entry run.slots e.text) }
    ensures splices { IfOk result (λ e. e.splices.items ≡ run.splices.items) }
{
    let mut new = String::with_capacity(alloc, run.size)?;
    let mut done = 0;
    run.slots.write(text, &mut new, &mut done)?;
    let rest = text.split_at(done).1;
    new.push_str(rest.front)?;
    new.push_str(rest.back)?;
    let SlotRun {
        slots: _,
        size: _,
        splices,
    } = run;
    Ok(Edited { text: new, splices })
}
