//! Operations at and below a node: the steps that lead there are kept once.
ghost use Rattle.std.specs.Prelude.{◌≡◌, ◌++◌, IfOk, IfSome, map};
ghost use Rattle.yq_core.specs.Entries.{tree_step};
ghost use Rattle.yq_documents.specs.Located.{steps_of};
ghost use Rattle.yq_semantics.specs.Operations.{operation_of, operations_of};
ghost use Rattle.yq_semantics.specs.Under as spec;

use crate::op::Op;
use std::alloc::{AllocError, Global};
use std::mem;
use yq_core::{Step, copied_steps};
use yq_documents::Path;

/// Operations on a document at and below a node.
#[derive(Drop)]
pub struct OpsUnder {
    /// The steps to the node.
    pub front: Vec<Step>,
    /// The path of each begins there.
    pub ops: Vec<Op>,
}

/// Puts the same steps again after others.
#[tactic(auto, using(crate::proofs::UnderLaws::steps_after))]
pub fn push_steps(alloc: Global, steps: &[Step], all: &mut Vec<Step>) -> Result<(), AllocError>
    ensures { spec.PutsSteps result all.old all.new steps.now }
{
    let mut copies = copied_steps(alloc, steps)?;
    all.append(&mut copies)
}

/// The path from the root that one from a node is, to which these steps lead.
#[tactic(auto, using(crate::proofs::UnderLaws::steps_after))]
fn whole_path(alloc: Global, front: &[Step], path: Path) -> Result<Path, AllocError>
    ensures doc { IfOk result (λ p. p.doc ≡ path.doc) }
    ensures steps { IfOk result (λ p. steps_of p ≡ map tree_step front.now ++ steps_of path) }
{
    let Path {
        doc,
        steps: mut own,
    } = path;
    let mut steps = copied_steps(alloc, front)?;
    steps.append(&mut own)?;
    Ok(Path { doc, steps })
}

/// The operation that one is whose path begins at a node, to which these steps lead.
fn whole_op(alloc: Global, front: &[Step], op: Op) -> Result<Op, AllocError>
    ensures { IfOk result (λ o. operation_of o ≡ spec.op_under front.now op) }
{
    match op {
        Op::Replace(path, value) => Ok(Op::Replace(whole_path(alloc, front, path)?, value)),
        Op::Append(path, key, value) => Ok(Op::Append(whole_path(alloc, front, path)?, key, value)),
        Op::Remove(path) => Ok(Op::Remove(whole_path(alloc, front, path)?)),
        Op::LineComment(path, text) => Ok(Op::LineComment(whole_path(alloc, front, path)?, text)),
        Op::HeadComment(path, text) => Ok(Op::HeadComment(whole_path(alloc, front, path)?, text)),
    }
}

/// Puts operations at and below a node, to which these steps lead, after others.
fn push_whole(
    alloc: Global,
    front: &[Step],
    below: Vec<Op>,
    ops: &mut Vec<Op>,
) -> Result<(), AllocError>
    ensures { spec.PutsOps result ops.old ops.new (spec.ops_under front.now below.items) }
{
    ops.reserve(below.len())?;
    'each: for op in below {
        ops.push(whole_op(alloc, front, op)?)?;
    }
    Ok(())
}

/// Puts the operations of a part after others, by their paths from the root.
pub fn push_part(alloc: Global, part: OpsUnder, ops: &mut Vec<Op>) -> Result<(), AllocError>
    ensures { spec.PutsOps result ops.old ops.new (spec.part_ops part) }
{
    let OpsUnder {
        front,
        ops: mut own,
    } = part;
    if !front.is_empty() {
        return push_whole(alloc, &front, own, ops);
    }
    if ops.is_empty() {
        mem::swap(ops, &mut own);
        return Ok(());
    }
    ops.append(&mut own)
}

/// The operations of parts, in order, by their paths from the root.
pub fn whole_ops(alloc: Global, parts: Vec<OpsUnder>) -> Result<Vec<Op>, AllocError>
    ensures { IfOk result (λ v. operations_of v.items ≡ spec.all_under parts.items) }
{
    let mut ops = Vec::new(alloc);
    'parts: for part in parts {
        push_part(alloc, part, &mut ops)?;
    }
    Ok(ops)
}

/// A removal by its path from the root, which begins at a node, to which these steps lead; nothing, where the
/// operation is another one.
fn whole_removal(alloc: Global, front: &[Step], op: &Op) -> Result<Option<Op>, AllocError>
    ensures { IfOk result (λ o. IfSome o (λ x. operation_of x ≡ spec.op_under front.now op.now)) }
{
    let Op::Remove(path) = op else {
        return Ok(None);
    };
    let mut steps = copied_steps(alloc, front)?;
    push_steps(alloc, &path.steps, &mut steps)?;
    let doc = path.doc;
    Ok(Some(Op::Remove(Path { doc, steps })))
}

/// The same of several.
pub fn whole_removals(
    alloc: Global,
    front: &[Step],
    ops: &[Op],
) -> Result<Option<Vec<Op>>, AllocError>
    ensures { spec.MayGiveOps result (spec.ops_under front.now ops.now) }
{
    let mut whole = Vec::with_capacity(alloc, ops.len())?;
    'each: for op in ops {
        let Some(removal) = whole_removal(alloc, front, op)? else {
            return Ok(None);
        };
        whole.push(removal)?;
    }
    Ok(Some(whole))
}
