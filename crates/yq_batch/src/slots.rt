//! Places of a text at which values are put in any order, each with what was put there.
ghost use Rattle.std.specs.Prelude.{◌≡◌, ◌+◌, IfOk, IfSome};
ghost use Rattle.yq_batch.specs.Slots as spec;

use std::alloc::{AllocError, Global};

/// Where a value is put, or an item or entry more.
#[derive(Clone, Copy, PartialEq, Eq, PartialOrd, Ord)]
pub(crate) struct SlotPlace {
    pub(crate) start: usize,
    pub(crate) end: usize,
    /// Whether it is an item or entry more.
    pub(crate) more: bool,
}

/// Places in order: one with what was put there, or those before an offset and those from there on. Of the ones before,
/// how many bytes were replaced, and by how many.
#[derive(Drop)]
pub(crate) enum Slots {
    One(SlotPlace, Option<String>),
    Two(Box<Slots>, usize, usize, usize, Box<Slots>),
}

/// An offset, after as many bytes were replaced by others.
pub(crate) fn moved(at: usize, olds: usize, news: usize) -> Option<usize>
    ensures { IfSome result (λ n. n + olds ≡ at + news) }
{
    let longer = at.checked_add(news)?;
    longer.checked_sub(olds)
}

/// Puts a text, after a lead, at a place that is this one: a content once, an item or entry more after those that were
/// put. Reports where it comes in the text as it was then, and of how many bytes of the first text it takes the place.
fn put_at(
    alloc: Global,
    own: SlotPlace,
    put: &mut Option<String>,
    place: SlotPlace,
    new: (&str, &str),
) -> Result<Option<(usize, usize)>, AllocError>
    ensures { IfOk result (λ o. IfSome o (λ p. spec.IsPutAt (spec.slot_of own put.old)
        (spec.slot_of own put.new) place new.entry.0.now new.entry.1.now p.0 p.1)) }
{
    let (lead, written) = new;
    if own.start != place.start || own.end != place.end {
        return Ok(None);
    }
    if own.more != place.more || place.end < place.start {
        return Ok(None);
    }
    let Some(text) = put else {
        let mut first = String::from_str(alloc, lead)?;
        first.push_str(written)?;
        *put = Some(first);
        return Ok(Some((place.start, place.end - place.start)));
    };
    if !place.more || lead.is_empty() {
        return Ok(None);
    }
    let Some(at) = place.start.checked_add(text.len()) else {
        return Ok(None);
    };
    text.push_str(lead)?;
    text.push_str(written)?;
    Ok(Some((at, 0)))
}

impl Slots {
    /// The same at one of these places.
    pub(crate) fn put(
        &mut self,
        alloc: Global,
        place: SlotPlace,
        lead: &str,
        written: &str,
    ) -> Result<Option<(usize, usize)>, AllocError>
        requires { spec.HasCounts self.old }
        ensures counts { IfOk result (λ o. IfSome o (λ p. spec.HasCounts self.new)) }
        ensures put { IfOk result (λ o. IfSome o (λ p. spec.IsPutIn (spec.slots_of self.old)
            (spec.slots_of self.new) place lead.now written.now p.0 p.1)) }
    {
        match self {
            Slots::One(own, put) => put_at(alloc, *own, put, place, (lead, written)),
            Slots::Two(left, split, olds, news, right) => {
                if place.start >= *split {
                    let Some(put) = right.put(alloc, place, lead, written)? else {
                        return Ok(None);
                    };
                    let Some(at) = moved(put.0, *olds, *news) else {
                        return Ok(None);
                    };
                    return Ok(Some((at, put.1)));
                }
                let Some(put) = left.put(alloc, place, lead, written)? else {
                    return Ok(None);
                };
                let Some(replaced) = olds.checked_add(put.1) else {
                    return Ok(None);
                };
                let Some(longer) = news.checked_add(lead.len()) else {
                    return Ok(None);
                };
                let Some(by) = longer.checked_add(written.len()) else {
                    return Ok(None);
                };
                *olds = replaced;
                *news = by;
                Ok(Some(put))
            }
        }
    }
}

/// Places at which nothing was put.
pub(crate) fn slots_at(alloc: Global, places: &[SlotPlace]) -> Result<Option<Slots>, AllocError>
    ensures { IfOk result (spec.AreEmpty places.now) }
{
    let [first, others @ ..] = places else {
        return Ok(None);
    };
    if others.is_empty() {
        return Ok(Some(Slots::One(*first, None)));
    }
    let (front, back) = places.split_at(places.len() / 2);
    let Some(left) = slots_at(alloc, front)? else {
        return Ok(None);
    };
    let Some(right) = slots_at(alloc, back)? else {
        return Ok(None);
    };
    let [middle, ..] = back else {
        return Ok(None);
    };
    let left = Box::new(alloc, left)?;
    let right = Box::new(alloc, right)?;
    Ok(Some(Slots::Two(left, middle.start, 0, 0, right)))
}
