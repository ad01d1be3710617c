//! Plans carried out: operations of each document at and below one node.
ghost use Rattle.std.specs.Prelude.{◌≡◌, IfOk, Some, length, true};
ghost use Rattle.yq_documents.specs.Reading.{cut_of, read_at};
ghost use Rattle.yq_row_table.specs.View.{rows_view};
ghost use Rattle.yq_semantics.specs.Under.{all_under, part_ops};
ghost use Rattle.yq_edit_laws.{specs.Answers.Edits, specs.Edit.edit_after, specs.Valid.AreServed};
ghost use Rattle.yq_splice.specs.Answers.{MayEdit};
ghost use Rattle.yq_edit_laws.specs.Carried as spec;

use crate::carrying::{carry_rows, edited_after};
use crate::others::{is_worth, with_others};
use crate::under::{carry_each_under, puts_filled};
use std::alloc::{AllocError, Global};
use yq_batch::{Together, carry_under};
use yq_documents::Documents;
use yq_lookup::CutText;
use yq_row_table::Rows;
use yq_semantics::{ExprError, OpsUnder, whole_ops, whole_removals};
use yq_text::{Edited, Splice};

/// The operations of a part of a plan carried out on a text with its cut, where that is done together for those below
/// its node; nothing, where it isn't, or only for few of them.
fn carry_part_under<'d>(
    alloc: Global,
    cut: &CutText<'d, '_>,
    part: &'d OpsUnder,
) -> Result<Option<Edited>, ExprError>
    requires { AreServed (part_ops part.now) cut.now }
    ensures { MayEdit result (spec.carry_all (part_ops part.now) cut.now) }
{
    let count = part.ops.len();
    let found = carry_under(alloc, cut, &part.front, &part.ops)?;
    let Some(together) = found else {
        return Ok(None);
    };
    let Together { edited, left } = together;
    if left.len() > 1 && !is_worth(count, left.len()) {
        return Ok(None);
    }
    let whole = whole_removals(alloc, &part.front, left)?;
    let Some(ops) = whole else {
        return Ok(None);
    };
    let carried = with_others(alloc, count, Together { edited, left: &ops })?;
    Ok(Some(carried))
}

/// The operations of a plan carried out on a text with its cut, where all are below one node, and that is done together;
/// nothing, where it isn't.
fn carry_below<'d>(
    alloc: Global,
    cut: &CutText<'d, '_>,
    plan: &'d [OpsUnder],
) -> Result<Option<Edited>, ExprError>
    requires { AreServed (all_under plan.now) cut.now }
    ensures { MayEdit result (spec.carry_all (all_under plan.now) cut.now) }
{
    let [part] = plan else {
        return Ok(None);
    };
    if part.front.is_empty() {
        return Ok(None);
    }
    carry_part_under(alloc, cut, part)
}

/// Whether all operations of a plan are below one node, of which the first puts a collection with items or entries.
fn puts_filled_alone(
    alloc: Global,
    cut: &CutText<'_, '_>,
    plan: &[OpsUnder],
) -> Result<bool, AllocError>
    ensures { IfOk result (λ b. b ≡ true → length plan.now ≡ 1) }
{
    let [part] = plan else {
        return Ok(false);
    };
    puts_filled(alloc, cut, part)
}

/// The operations of a plan's sole part carried out one by one on a text with its rows; their splices come after
/// others.
fn carry_sole(
    alloc: Global,
    text: &str,
    rows: Rows<'_>,
    splices: Vec<Splice>,
    plan: Vec<OpsUnder>,
) -> Result<Edited, ExprError>
    requires rows { rows ≡ rows_view (cut_of text.now) }
    requires read { read_at text.now ≡ Some (cut_of text.now) }
    requires sole { length plan.items ≡ 1 }
    requires serves { AreServed (all_under plan.items) text.now }
    ensures { Edits result (edit_after splices.items (spec.carry_all (all_under plan.items)
        text.now)) }
{
    let mut plan = plan;
    let Some(part) = plan.pop() else {
        unreachable!();
    };
    carry_each_under(alloc, text, rows, splices, part)
}

/// The operations of a plan carried out on a text with its rows; their splices come after others.
fn carry_on_rows(
    alloc: Global,
    text: &str,
    rows: Rows<'_>,
    splices: Vec<Splice>,
    plan: Vec<OpsUnder>,
) -> Result<Edited, ExprError>
    requires rows { rows ≡ rows_view (cut_of text.now) }
    requires read { read_at text.now ≡ Some (cut_of text.now) }
    requires serves { AreServed (all_under plan.items) text.now }
    ensures { Edits result (edit_after splices.items (spec.carry_all (all_under plan.items)
        text.now)) }
{
    let below = carry_below(alloc, &CutText::new(text, &rows), &plan)?;
    if let Some(edited) = below {
        return Ok(edited_after(splices, edited)?);
    }
    let filled = puts_filled_alone(alloc, &CutText::new(text, &rows), &plan)?;
    if filled {
        return carry_sole(alloc, text, rows, splices, plan);
    }
    let ops = whole_ops(alloc, plan)?;
    carry_rows(alloc, text, rows, splices, &ops)
}

/// Carries out the operations of a plan on a text that was read. Their splices come after the given
/// ones. For a single operation the text isn't copied.
pub fn carry_plan(
    alloc: Global,
    text: &str,
    documents: Documents<'_>,
    splices: Vec<Splice>,
    plan: Vec<OpsUnder>,
) -> Result<Edited, ExprError>
    requires same { documents ≡ text.now }
    requires read { read_at text.now ≡ Some (cut_of documents) }
    requires serves { AreServed (all_under plan.items) text.now }
    ensures { Edits result (edit_after splices.items (spec.carry_all (all_under plan.items)
        text.now)) }
{
    // What is decoded is freed before an operation reads the head that it changes.
    let rows = documents.into_rows();
    carry_on_rows(alloc, text, rows, splices, plan)
}
