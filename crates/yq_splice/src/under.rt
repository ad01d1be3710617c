//! Operations at and below a node carried out one by one: the steps that lead to it are kept once.
ghost use Rattle.std.specs.Prelude.{◌≡◌, ◌≤◌, ◌++◌, IfOk, Some, length, map, take};
ghost use Rattle.yq_core.specs.Entries.{tree_step};
ghost use Rattle.yq_documents.{specs.Located.steps_of, specs.Reading.{cut_of, read_at}};
ghost use Rattle.yq_row_table.specs.View.{rows_view};
ghost use Rattle.yq_semantics.{specs.Operations.operation_of, specs.Under.{op_under, part_ops}};
ghost use Rattle.yq_edit_laws.{specs.Answers.Edits, specs.Edit.edit_after, specs.Valid.AreServed};
ghost use Rattle.yq_batch.specs.Under.{path_in};
ghost use Rattle.yq_edit_laws.specs.Carried as spec;

use crate::carrying::session_on;
use std::alloc::{AllocError, Global};
use yq_core::{Step, copied_steps};
use yq_documents::Path;
use yq_edit_rules::is_filled;
use yq_lookup::CutText;
use yq_row_table::Rows;
use yq_semantics::{ExprError, Op, OpsUnder, push_steps};
use yq_text::{Edited, Splice};

/// Whether the first of several operations below a node puts a collection with items or entries in a row: it isn't carried
/// out together with others.
pub(crate) fn puts_filled(
    alloc: Global,
    cut: &CutText<'_, '_>,
    part: &OpsUnder,
) -> Result<bool, AllocError> {
    let [Op::Replace(own, value), _, ..] = part.ops.as_slice() else {
        return Ok(false);
    };
    if part.front.is_empty() || !is_filled(value) {
        return Ok(false);
    }
    let mut steps = copied_steps(alloc, &part.front)?;
    push_steps(alloc, &own.steps, &mut steps)?;
    let path = Path {
        doc: own.doc,
        steps,
    };
    let mut way = cut.again();
    Ok(way.to_held_row(alloc, &path).is_some())
}

/// A path after the first of some steps, so many.
#[tactic(auto, using(yq_semantics::proofs::UnderLaws::steps_after, crate::proofs::UnderLaws::front_kept, crate::proofs::UnderLaws::front_within))]
fn path_after(way: Vec<Step>, depth: usize, path: Path) -> Result<Path, AllocError>
    requires { depth ≤ length way.items }
    ensures doc { IfOk result (λ p. p.doc ≡ path.doc) }
    ensures is { IfOk result (λ p. steps_of p ≡
        map tree_step (take depth way.items) ++ steps_of path) }
    ensures front { IfOk result (λ p. take depth p.steps.items ≡ take depth way.items) }
    ensures within { IfOk result (λ p. depth ≤ length p.steps.items) }
{
    let Path {
        doc,
        steps: mut own,
    } = path;
    let mut all = way;
    all.truncate(depth);
    all.append(&mut own)?;
    Ok(Path { doc, steps: all })
}

/// The operation that one is whose path begins at the node to which the first of some steps, so many, lead.
fn op_after(way: Vec<Step>, depth: usize, op: Op) -> Result<Op, AllocError>
    requires { depth ≤ length way.items }
    ensures op { IfOk result (λ o. operation_of o ≡ op_under (take depth way.items) op) }
    ensures front { IfOk result (λ o. take depth (path_in o).steps.items ≡
        take depth way.items) }
    ensures within { IfOk result (λ o. depth ≤ length (path_in o).steps.items) }
{
    match op {
        Op::Replace(path, value) => Ok(Op::Replace(path_after(way, depth, path)?, value)),
        Op::Append(path, key, value) => {
            Ok(Op::Append(path_after(way, depth, path)?, key, value))
        }
        Op::Remove(path) => Ok(Op::Remove(path_after(way, depth, path)?)),
        Op::LineComment(path, text) => { Ok(Op::LineComment(path_after(way, depth, path)?, text)) }
        Op::HeadComment(path, text) => { Ok(Op::HeadComment(path_after(way, depth, path)?, text)) }
    }
}

/// The steps of an operation's path.
fn steps_in(op: Op) -> Vec<Step>
    ensures { result.items ≡ (path_in op).steps.items }
{
    match op {
        Op::Replace(path, _) => path.steps,
        Op::Append(path, _, _) => path.steps,
        Op::Remove(path) => path.steps,
        Op::LineComment(path, _) => path.steps,
        Op::HeadComment(path, _) => path.steps,
    }
}

/// The operations of a part of a plan carried out one after the other on a copy of a text that was read; their splices come
/// after others.
pub(crate) fn carry_each_under(
    alloc: Global,
    text: &str,
    rows: Rows<'_>,
    splices: Vec<Splice>,
    part: OpsUnder,
) -> Result<Edited, ExprError>
    requires rows { rows ≡ rows_view (cut_of text.now) }
    requires read { read_at text.now ≡ Some (cut_of text.now) }
    requires serves { AreServed (part_ops part) text.now }
    ensures { Edits result (edit_after splices.items (spec.carry_all (part_ops part) text.now)) }
{
    let mut session = session_on(alloc, text, rows)?;
    let mut splices = splices;
    let OpsUnder { front, ops } = part;
    let depth = front.len();
    let mut steps = front;
    'operations: for op in ops {
        let whole = op_after(steps, depth, op)?;
        let mut next = session.apply_valid(&whole)?;
        splices.append(&mut next)?;
        steps = steps_in(whole);
    }
    Ok(Edited {
        text: session.close(),
        splices,
    })
}
