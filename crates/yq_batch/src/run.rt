//! Runs: the text and the splices that values make which are put one after the other.
ghost use Rattle.std.specs.Prelude.{◌≡◌, ◌≤◌, ◌<◌, ◌++◌, [], true, IfErr, IfOk, OnOk, Some, drop, take, string_bytes};
ghost use Rattle.std.specs.Str.{IsCharBoundary};
ghost use Rattle.yq_text.{specs.Halves.whole, specs.Script.splice_at};
ghost use Rattle.yq_documents.specs.Reading.{cut_of, read_at};
ghost use Rattle.yq_batch.specs.Runs as spec;

use crate::slots::SlotPlace;
use std::alloc::{AllocError, Global};
use std::ops::Range;
use yq_lookup::CutText;
use yq_semantics::{ExprError, Refusal};
use yq_text::{Edited, Halves, Splice, TEXT_LIMIT};

/// What values put one after the other made of a text so far.
#[derive(Drop)]
pub(crate) struct PutRun {
    /// What is in the new text up to the end of the last one.
    pub(crate) text: String,
    /// How many bytes of the old text that takes the place of.
    pub(crate) done: usize,
    pub(crate) splices: Vec<Splice>,
}

/// The text of a cut reads as that cut: a law.
pub(crate) fn text_reads(cut: &CutText<'_, '_>)
    ensures { read_at cut.now ≡ Some (cut_of cut.now) }
{
    let _text = cut.text();
}

/// What is between two places of a text.
pub(crate) fn between<'t>(text: Halves<'t>, from: usize, to: usize) -> Halves<'t>
    requires order { from ≤ to }
    requires from { IsCharBoundary (whole text) from }
    requires to { IsCharBoundary (whole text) to }
    ensures { whole result ≡ drop from (take to (whole text.entry)) }
{
    text.split_at(to).0.split_at(from).1
}

/// The bytes of a text.
pub(crate) fn bytes_of(alloc: Global, text: Halves<'_>) -> Result<Vec<u8>, AllocError>
    ensures { IfOk result (λ v. v.items ≡ whole text.entry) }
{
    let mut bytes = Vec::new(alloc);
    bytes.extend_from_slice(text.front.as_bytes())?;
    bytes.extend_from_slice(text.back.as_bytes())?;
    Ok(bytes)
}

/// Adds a splice, if it changes bytes.
pub(crate) fn push_splice(
    splices: &mut Vec<Splice>,
    at: usize,
    old: Vec<u8>,
    new: Vec<u8>,
) -> Result<(), AllocError>
    ensures { OnOk result (splices.new.items ≡
        splices.old.items ++ splice_at at old.items new.items) }
{
    if old.as_slice() == new.as_slice() {
        return Ok(());
    }
    let at = at as u64;
    splices.push(Splice { at, old, new })?;
    Ok(())
}

impl PutRun {
    /// Nothing yet, with room for a text of so many bytes and so many splices.
    pub(crate) fn with_room(alloc: Global, size: usize, count: usize) -> Result<PutRun, AllocError>
        ensures text { IfOk result (λ r. string_bytes r.text ≡ []) }
        ensures done { IfOk result (λ r. r.done ≡ 0) }
        ensures splices { IfOk result (λ r. r.splices.items ≡ []) }
    {
        Ok(PutRun {
            text: String::with_capacity(alloc, size)?,
            done: 0,
            splices: Vec::with_capacity(alloc, count)?,
        })
    }

    /// Whether what comes at a place of the old text, after what leads to it, is after all that were
    /// replaced; an item or entry to which nothing leads is right after a bracket, and so after what comes
    /// before that.
    pub(crate) fn comes_before(&self, place: SlotPlace, lead: &str) -> bool
        ensures { result ≡ true → spec.IsAfterRun self.now place lead.now }
    {
        if self.done > place.start {
            return false;
        }
        if place.more {
            !lead.is_empty() || self.done < place.start
        } else {
            self.done < place.end
        }
    }

    /// A text comes in the place of what is between two places.
    pub(crate) fn put(
        &mut self,
        alloc: Global,
        text: Halves<'_>,
        range: Range<usize>,
        written: String,
    ) -> Result<(), ExprError>
        requires done { self.old.done ≤ range.start }
        requires order { range.start ≤ range.end }
        requires edge { IsCharBoundary (whole text) self.old.done }
        requires start { IsCharBoundary (whole text) range.start }
        requires end { IsCharBoundary (whole text) range.end }
        ensures ok { OnOk result (spec.HasPut (whole text.entry) range.start range.end
            (string_bytes written) self.old self.new) }
        ensures err { IfErr result (λ e. spec.PutFails e (whole text.entry) range.start range.end
            (string_bytes written) self.old) }
    {
        let Range { start, end } = range;
        let kept = between(text, self.done, start);
        self.text.push_str(kept.front)?;
        self.text.push_str(kept.back)?;
        let at = self.text.len();
        self.text.push_str(&written)?;
        self.done = end;
        let rest = text.split_at(end).1.len();
        if rest > TEXT_LIMIT || self.text.len() > TEXT_LIMIT - rest {
            return Err(Refusal::TooLarge.error());
        }
        let old = bytes_of(alloc, between(text, start, end))?;
        Ok(push_splice(&mut self.splices, at, old, written.into_bytes())?)
    }

    /// The text that it made, with all that is left of the old one, and its splices.
    pub(crate) fn end(self, text: Halves<'_>) -> Result<Edited, AllocError>
        requires { IsCharBoundary (whole text) self.done }
        ensures text { IfOk result (λ e. string_bytes e.text ≡
            spec.text_with_run (whole text.entry) (string_bytes self.text) self.done) }
        ensures splices { IfOk result (λ e. e.splices.items ≡ self.splices.items) }
    {
        let PutRun {
            text: mut new,
            done,
            splices,
        } = self;
        let left = text.split_at(done).1;
        new.push_str(left.front)?;
        new.push_str(left.back)?;
        Ok(Edited { text: new, splices })
    }
}
