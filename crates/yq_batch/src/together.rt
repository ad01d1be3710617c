//! Operations carried out together: how is found once, of the first one and of which others there are.
ghost use Rattle.std.specs.Prelude.{IfErr, IfOk, IfSome, List, ℕ};
ghost use Rattle.yq_semantics.{specs.Operations.operations_of, specs.Under.ops_under};
ghost use Rattle.yq_edit_laws.{specs.Answers.EditFails, specs.Carried.carry_all, specs.Valid.AreServed};
ghost use Rattle.yq_batch.{specs.Runs.IsFoundHead, specs.Under.{CarriesUnder, MayCarryUnder}};
ghost use Rattle.yq_batch.specs.Together as spec;

use crate::any_row::carry_in_any_row;
use crate::head::{FoundHead, HeadInText, head_at, head_for, is_in_head};
use crate::head_removals::remove_in_heads;
use crate::heads::put_in_heads;
use crate::in_rows::{carry_in_rows, put_under};
use crate::removals::remove_children;
use crate::row_removals::{remove_rows, remove_under};
use std::alloc::{AllocError, Global};
use yq_core::Step;
use yq_lookup::CutText;
use yq_semantics::{ExprError, Op};
use yq_text::Edited;

/// What operations that were carried out together made of a text.
#[derive(Drop)]
pub struct Together<'o> {
    pub edited: Edited,
    /// The operations that aren't carried out.
    pub left: &'o [Op],
}

/// How operations are carried out together.
#[derive(Drop)]
pub(crate) enum HowCarried<'o, 't> {
    /// They put values in flow collections, and items and entries into these: the first one in a head.
    InHeads(FoundHead<'o, 't>),
    /// They take items and entries out of flow collections of a document: the first one in a head.
    OutOfHeads(FoundHead<'o, 't>),
    /// The first ones take lines out of block collections of a document.
    OutOfRows(usize),
    /// Each changes one row.
    InRows,
    /// They put values in rows of a mapping, and entries at its end.
    InMapping,
}

/// Whether operations, all but perhaps the last one, take items and entries out of a document, and the second one changes a
/// collection of a head of it, if there are more.
fn take_out_of(ops: &[Op], head: &FoundHead<'_, '_>) -> bool {
    if ops.len() > 2 && !is_in_head(&ops[1], head.doc, head.stem) {
        return false;
    }
    'operations: for i in 0..ops.len() {
        let Op::Remove(path) = &ops[i] else {
            return i + 1 == ops.len();
        };
        if path.doc != head.doc {
            return i + 1 == ops.len();
        }
    }
    true
}

/// How operations are carried out of which the first one changes a collection of a head.
fn how_in_head<'o, 't>(head: FoundHead<'o, 't>, ops: &[Op]) -> Option<HowCarried<'o, 't>>
    ensures { (t : List ℕ) → IsFoundHead t head.entry → IfSome result (spec.IsHow t) }
{
    let [Op::Remove(_), ..] = ops else {
        return Some(HowCarried::InHeads(head));
    };
    if !take_out_of(ops, &head) {
        return None;
    }
    Some(HowCarried::OutOfHeads(head))
}

/// How operations are carried out that change rows, if none takes something out.
fn how_in_rows<'o, 't>(ops: &[Op]) -> Option<HowCarried<'o, 't>>
    ensures { (t : List ℕ) → IfSome result (spec.IsHow t) }
{
    let mut adds = false;
    'operations: for op in ops {
        match op {
            Op::Remove(_) => return None,
            Op::Append(_, _, _) => adds = true,
            Op::Replace(_, _) | Op::LineComment(_, _) | Op::HeadComment(_, _) => {}
        }
    }
    if adds {
        return Some(HowCarried::InMapping);
    }
    Some(HowCarried::InRows)
}

/// How operations are carried out together outside flow collections, if they may be: by what the first one changes, and
/// which others there are.
fn how_outside<'o, 't>(ops: &'o [Op]) -> Option<HowCarried<'o, 't>>
    ensures { (t : List ℕ) → IfSome result (spec.IsHow t) }
{
    let [first, _, ..] = ops else {
        return None;
    };
    let Op::Remove(path) = first else {
        return how_in_rows(ops);
    };
    Some(HowCarried::OutOfRows(path.doc))
}

/// How operations are carried out together, if they may be.
fn how_carried<'o, 't>(
    alloc: Global,
    cut: &CutText<'_, 't>,
    ops: &'o [Op],
) -> Result<Option<HowCarried<'o, 't>>, AllocError>
    ensures { IfOk result (λ o. IfSome o (spec.IsHow cut.now)) }
{
    let [first, _, ..] = ops else {
        return Ok(None);
    };
    let found = head_for(alloc, cut, first)?;
    if let Some(head) = found {
        return Ok(how_in_head(head, ops));
    }
    Ok(how_outside(ops))
}

/// Carries out operations together, in one pass over the text: all, or the first ones. Nothing, where that isn't known of
/// them, or one of them does something else than it seemed.
pub fn carry_together<'d, 'o: 'd>(
    alloc: Global,
    cut: &CutText<'d, '_>,
    ops: &'o [Op],
) -> Result<Option<Together<'o>>, ExprError>
    requires { AreServed (operations_of ops.now) cut.now }
    ensures ok { IfOk result (spec.CarriesTogether ops.now cut.now) }
    ensures err { IfErr result (λ e. EditFails e (carry_all (operations_of ops.now) cut.now)) }
{
    let found = how_carried(alloc, cut, ops)?;
    let Some(how) = found else {
        return Ok(None);
    };
    match how {
        HowCarried::InHeads(head) => put_in_heads(alloc, cut, head, ops),
        HowCarried::OutOfHeads(head) => Ok(Some(remove_in_heads(alloc, cut, head, ops)?)),
        HowCarried::OutOfRows(doc) => Ok(Some(remove_rows(alloc, cut, doc, ops)?)),
        HowCarried::InRows => carry_in_rows(alloc, cut, ops),
        HowCarried::InMapping => Ok(carry_in_any_row(alloc, cut, ops)?),
    }
}

/// Carries out operations at and below a node that take items and entries out: of block collections, with their lines, or
/// its own ones, where it is a flow collection.
fn remove_below<'d, 'o: 'd>(
    alloc: Global,
    cut: &CutText<'d, '_>,
    front: &[Step],
    doc: usize,
    ops: &'o [Op],
) -> Result<Together<'o>, ExprError>
    requires { AreServed (ops_under front.now ops.now) cut.now }
    ensures ok { IfOk result (CarriesUnder front.now ops.now cut.now) }
    ensures err { IfErr result (λ e. EditFails e
        (carry_all (ops_under front.now ops.now) cut.now)) }
{
    let together = remove_under(alloc, cut, front, doc, ops)?;
    if together.left.len() < ops.len() {
        return Ok(together);
    }
    let found = head_at(alloc, cut, doc, front)?;
    let Some(found) = found else {
        return Ok(together);
    };
    let FoundHead { doc, stem, head } = found;
    let _text = cut.text();
    let at = HeadInText {
        cut,
        doc,
        stem,
        head,
    };
    remove_children(alloc, &at, front, ops)
}

/// The same of operations at and below a node, to which these steps lead, where they take its items and entries out, or
/// change rows outside flow collections.
pub fn carry_under<'d, 'o: 'd>(
    alloc: Global,
    cut: &CutText<'d, '_>,
    front: &[Step],
    ops: &'o [Op],
) -> Result<Option<Together<'o>>, ExprError>
    requires { AreServed (ops_under front.now ops.now) cut.now }
    ensures ok { IfOk result (MayCarryUnder front.now ops.now cut.now) }
    ensures err { IfErr result (λ e. EditFails e
        (carry_all (ops_under front.now ops.now) cut.now)) }
{
    match how_outside(ops) {
        Some(HowCarried::OutOfRows(doc)) => { Ok(Some(remove_below(alloc, cut, front, doc, ops)?)) }
        Some(HowCarried::InRows) => put_under(alloc, cut, front, ops),
        _ => Ok(None),
    }
}
