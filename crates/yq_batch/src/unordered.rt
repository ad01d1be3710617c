//! Values that an update puts in the flow collections of one head in any order, and items and entries that it puts
//! into these.
ghost use Rattle.std.specs.Prelude.{IfOk, IfSome};
ghost use Rattle.yq_semantics.specs.Operations.{operations_of};
ghost use Rattle.yq_edit_laws.specs.Valid.{AreServed, HaveOperands};
ghost use Rattle.yq_batch.{specs.Runs.IsInText, specs.Together.CarriesTogether};
ghost use Rattle.yq_batch.specs.OpenRuns as spec;

use crate::any_order::{SlotRun, ended};
use crate::change::change_of;
use crate::head::{HeadInText, text_around};
use crate::near::Near;
use crate::slot_order::{are_in_order, each_once};
use crate::slots::{SlotPlace, slots_at};
use crate::together::Together;
use std::alloc::{AllocError, Global};
use yq_semantics::Op;

/// The places of operations that change the collections of a head, in order.
fn places_of<'s>(
    alloc: Global,
    at: &HeadInText<'_, '_, '_, '_, '_, '_>,
    ops: &'s [Op],
) -> Result<Option<Vec<SlotPlace>>, AllocError>
    requires there { IsInText at.now }
    requires operands { HaveOperands (operations_of ops.now) }
{
    let mut near = Near::new(alloc, true)?;
    let mut places = Vec::with_capacity(alloc, ops.len())?;
    let mut rest = ops;
    'operations: while let [op, after @ ..] = rest {
        let found = change_of(alloc, at, op, &mut near)?;
        let Some(change) = found else {
            return Ok(None);
        };
        places.push(change.place)?;
        rest = after;
    }
    places.sort_unstable();
    Ok(Some(each_once(alloc, &places)?))
}

/// Places at which nothing was put, if they come in order.
fn begun<'s>(
    alloc: Global,
    at: &HeadInText<'_, '_, '_, '_, '_, '_>,
    ops: &'s [Op],
) -> Result<Option<SlotRun>, AllocError>
    requires there { IsInText at.now }
    requires operands { HaveOperands (operations_of ops.now) }
    ensures { IfOk result (λ o. IfSome o (spec.BeginsOpen at.now)) }
{
    let Some(places) = places_of(alloc, at, ops)? else {
        return Ok(None);
    };
    let text = text_around(at);
    if !are_in_order(&places, text.len()) {
        return Ok(None);
    }
    let Some(slots) = slots_at(alloc, &places)? else {
        return Ok(None);
    };
    Ok(Some(SlotRun {
        slots,
        size: text.len(),
        splices: Vec::new(alloc),
    }))
}

/// Carries out operations that change the collections of a head, in any order; nothing, where one of them does
/// something else, or changes what another one put.
pub(crate) fn put_in_any_order<'s>(
    alloc: Global,
    at: &HeadInText<'_, '_, '_, '_, '_, '_>,
    ops: &'s [Op],
) -> Result<Option<Together<'s>>, AllocError>
    requires there { IsInText at.now }
    requires serves { AreServed (operations_of ops.now) at.now.cut.now }
    ensures { IfOk result (CarriesTogether ops.now at.now.cut.now) }
{
    let Some(mut run) = begun(alloc, at, ops)? else {
        return Ok(None);
    };
    let text = text_around(at);
    let mut near = Near::new(alloc, true)?;
    let mut rest = ops;
    'operations: while let [op, after @ ..] = rest {
        let found = change_of(alloc, at, op, &mut near)?;
        let Some(change) = found else {
            return Ok(None);
        };
        if !run.put(alloc, text, &change)? {
            return Ok(None);
        }
        rest = after;
    }
    let edited = ended(alloc, text, run)?;
    Ok(Some(Together { edited, left: rest }))
}
