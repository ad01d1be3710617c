//! Planning: the operations that carry out an update on documents.
ghost use Rattle.std.specs.Prelude.{◌≡◌, ◌<◌, ◌⊎◌, IfOk};
ghost use Rattle.yq_semantics.{specs.Judgement.{gives, refuses}, specs.View.{program_of, update_of}, specs.Under.all_under};
ghost use Rattle.yq_planner.specs.ValidChanges.{HaveValidValues, HoldValidValues};
ghost use Rattle.yq_expr.specs.PlannedUpdates.{AllFitIn, ForUpdate, IsUpdateAt, JudgesParts, JudgesPlan, documents_after, meaning_in};
ghost use Rattle.yq_semantics.specs.Plans as plans;
ghost use Rattle.yq_semantics.specs.Program as spec;
ghost use Rattle.yq_failure.specs.declared.failure.Failure.TheVariants as failure;

use crate::plans::changes::changes;
use std::alloc::Global;
use yq_documents::Documents;
use yq_planner::operations;
use yq_semantics::{ExprError, Op, OpsUnder, Program, Refusal, Syntax, Update, whole_ops};

fn is_removal(update: &Update) -> bool
    ensures { result ≡ plans.is_removal (update_of update.now) }
{
    matches!(update, Update::Delete(_))
}

/// The operations that carry out an update.
fn plan_update(
    alloc: Global,
    update: &Update,
    documents: &Documents<'_>,
) -> Result<Vec<OpsUnder>, ExprError>
    ensures exact { JudgesParts result (update_of update.now) documents.now }
    ensures valid { IfOk result (λ v. HaveValidValues (all_under v.items)) }
{
    let changes = changes(alloc, update, documents)?;
    Ok(operations(alloc, is_removal(update), changes)?)
}

/// The operations that carry out update `nth` of a program, counted from 0, on documents. The
/// operations of one document at and below one node share the steps to that node.
pub fn plan_under(
    alloc: Global,
    program: &Program,
    nth: usize,
    documents: &Documents<'_>,
) -> Result<Vec<OpsUnder>, ExprError>
    requires { nth < spec.update_count (program_of program.now) }
    // The operations, or why there are none.
    ensures exact { ForUpdate nth program.now (λ u. JudgesParts result u documents.now) }
    // Their values are valid, so that what is written of them reads.
    ensures valid { IfOk result (λ v. HaveValidValues (all_under v.items)) }
{
    match program.syntax() {
        Syntax::Read(_) => Ok(Vec::new(alloc)),
        Syntax::Updates(updates) => plan_update(alloc, &updates[nth], documents),
    }
}

/// The same operations, by their paths from the root.
fn planned(
    alloc: Global,
    program: &Program,
    nth: usize,
    documents: &Documents<'_>,
) -> Result<Vec<Op>, ExprError>
    requires { nth < spec.update_count (program_of program.now) }
    ensures exact { ForUpdate nth program.now (λ u. JudgesPlan result u documents.now) }
    ensures valid { IfOk result (λ ops. HoldValidValues ops.items) }
{
    let parts = plan_under(alloc, program, nth, documents)?;
    Ok(whole_ops(alloc, parts)?)
}

/// The operations that carry out update `nth` of a program, counted from 0, on
/// documents.
pub fn plan(
    alloc: Global,
    program: &Program,
    nth: usize,
    documents: &Documents<'_>,
) -> Result<Vec<Op>, ExprError>
    requires { nth < spec.update_count (program_of program.now) }
    // The operations, or why there are none.
    ensures exact { (u : spec.Update) → IsUpdateAt nth program.now u →
        JudgesPlan result u documents.now }
    // Their values are valid, so that what is written of them reads.
    ensures valid { IfOk result (λ ops. HoldValidValues ops.items) }
    // The operations, one after the other, make what the update means.
    ensures meaning { (u : spec.Update) → IsUpdateAt nth program.now u →
        IfOk result (λ ops.
        meaning_in u documents.now ≡ gives (documents_after ops.items documents.now)) }
    // Each fits at its turn.
    ensures fits { (u : spec.Update) → IsUpdateAt nth program.now u →
        IfOk result (λ ops. AllFitIn ops.items documents.now) }
    // A refusal is that of what the update means.
    ensures refused { (u : spec.Update) (why : Refusal) →
        IsUpdateAt nth program.now u → result ≡ Err (failure.Fault why) →
        meaning_in u documents.now ≡ refuses why }
    // What the update means is refused only with that refusal.
    ensures refuses { (u : spec.Update) (why : Refusal) →
        IsUpdateAt nth program.now u →
        meaning_in u documents.now ≡ refuses why →
        (result ≡ Err (failure.Fault why)) ⊎ (result ≡ Err failure.Memory) }
{
    documents.are_ready();
    program.literals_hold();
    planned(alloc, program, nth, documents)
}
