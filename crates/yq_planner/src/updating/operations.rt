//! Operations that carry out changes: each is of one node.
ghost use Rattle.std.specs.Prelude.{◌≡◌, IfOk, map, string_bytes};
ghost use Rattle.yq_documents.specs.Located.{steps_of};
ghost use Rattle.yq_planner.specs.ChangeView.{all_changes_under, changed_of, changes_under};
ghost use Rattle.yq_planner.specs.ChangeAnswers.{addition_op, addition_ops, ops_in_order, GivesOps, PutsParts};
ghost use Rattle.yq_semantics.{specs.Operations.operation_of, specs.Under.{part_ops, PutsOps}};
ghost use Rattle.yq_semantics.specs.Plans as spec;

use crate::updating::change::{Addition, Change, ChangesUnder, PlacedChange};
use std::alloc::{AllocError, Global};
use yq_core::{Step, copied_steps};
use yq_documents::Path;
use yq_semantics::{CommentPlace, Op, OpsUnder, push_part};

/// The operation of an addition at a path.
fn add_op(alloc: Global, path: &Path, addition: Addition) -> Result<Op, AllocError>
    ensures { IfOk result (λ op. operation_of op ≡ addition_op path.now addition) }
{
    let doc = path.doc;
    let mut steps = copied_steps(alloc, &path.steps)?;
    match addition {
        Addition::Appends(key, value) => Ok(Op::Append(Path { doc, steps }, key, value)),
        Addition::Overwrites(key, value) => {
            steps.push(Step::Key(key))?;
            Ok(Op::Replace(Path { doc, steps }, value))
        }
    }
}

/// Puts the operations of additions at a path after others.
fn push_adds(
    alloc: Global,
    path: &Path,
    additions: Vec<Addition>,
    ops: &mut Vec<Op>,
) -> Result<(), AllocError>
    ensures { PutsOps result ops.old ops.new (addition_ops path.now additions.items) }
{
    ops.reserve(additions.len())?;
    'each: for addition in additions {
        ops.push(add_op(alloc, path, addition)?)?;
    }
    Ok(())
}

/// The operation that sets a comment.
fn comment_op(path: Path, place: CommentPlace, text: String) -> Op
    ensures { operation_of result ≡ spec.comment_op path.doc (steps_of path) place
        (string_bytes text) }
{
    match place {
        CommentPlace::Line => Op::LineComment(path, text),
        CommentPlace::Head => Op::HeadComment(path, text),
    }
}

/// Puts the operations of a change in document `doc` after others.
fn push_change(
    alloc: Global,
    doc: usize,
    changed: PlacedChange,
    ops: &mut Vec<Op>,
) -> Result<(), AllocError>
    ensures { PutsOps result ops.old ops.new (spec.change_ops doc (changed_of changed)) }
{
    let path = Path {
        doc,
        steps: changed.path,
    };
    let op = match changed.change {
        Change::Replaces(value) => Op::Replace(path, value),
        Change::Adds(additions) => return push_adds(alloc, &path, additions, ops),
        Change::Removes => Op::Remove(path),
        Change::SetsComment(place, text) => comment_op(path, place, text),
    };
    Ok(ops.push(op)?)
}

/// Changes in the order in which they are made: removals last to first, since
/// what goes shifts what comes after it.
#[tactic(auto, using(yq_semantics::proofs::Lists::map_reverse))]
fn ordered(removal: bool, changes: Vec<PlacedChange>) -> Vec<PlacedChange>
    ensures { map changed_of result.items ≡ spec.ordered removal (map changed_of changes.items) }
{
    let mut ordered = changes;
    if removal {
        ordered.reverse();
    }
    ordered
}

/// Puts the operations of changes in document `doc` after others, by paths that begin where those of the changes do.
fn push_each(
    alloc: Global,
    doc: usize,
    changes: Vec<PlacedChange>,
    ops: &mut Vec<Op>,
) -> Result<(), AllocError>
    ensures { PutsOps result ops.old ops.new (spec.ops_of doc (map changed_of changes.items)) }
{
    'each: for changed in changes {
        push_change(alloc, doc, changed, ops)?;
    }
    Ok(())
}

/// The operations of the changes of document `doc`.
#[tactic(auto, using(yq_semantics::proofs::UnderLaws::in_order_under))]
fn document_ops(
    alloc: Global,
    doc: usize,
    removal: bool,
    changed: ChangesUnder,
) -> Result<OpsUnder, AllocError>
    ensures { IfOk result (λ x. part_ops x ≡ ops_in_order doc removal changed) }
{
    let ChangesUnder { front, changes } = changed;
    let mut ops = Vec::with_capacity(alloc, changes.len())?;
    push_each(alloc, doc, ordered(removal, changes), &mut ops)?;
    Ok(OpsUnder { front, ops })
}

/// Puts the operations of changes in document `doc` after others, by their paths from the root.
pub fn push_changes(
    alloc: Global,
    doc: usize,
    changed: ChangesUnder,
    ops: &mut Vec<Op>,
) -> Result<(), AllocError>
    ensures { PutsOps result ops.old ops.new (spec.ops_of doc (changes_under changed)) }
{
    let part = document_ops(alloc, doc, false, changed)?;
    push_part(alloc, part, ops)
}

/// Puts the operations of the changes of document `doc` after those of others.
#[tactic(auto, using(yq_semantics::proofs::UnderLaws::parts_more))]
fn push_document(
    alloc: Global,
    doc: usize,
    removal: bool,
    changed: ChangesUnder,
    parts: &mut Vec<OpsUnder>,
) -> Result<(), AllocError>
    ensures { PutsParts result parts.old parts.new (ops_in_order doc removal changed) }
{
    let part = document_ops(alloc, doc, removal, changed)?;
    Ok(parts.push(part)?)
}

/// The operations of the changes of each document, in order.
pub fn operations(
    alloc: Global,
    removal: bool,
    changes: Vec<ChangesUnder>,
) -> Result<Vec<OpsUnder>, AllocError>
    ensures { GivesOps result (spec.all_ops removal 0 (all_changes_under changes.items)) }
{
    let mut parts = Vec::new(alloc);
    let mut doc = 0;
    'documents: for changed in changes {
        push_document(alloc, doc, removal, changed, &mut parts)?;
        doc += 1;
    }
    Ok(parts)
}
