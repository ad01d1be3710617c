//! Updates of one node at a path that is the same in each tree, planned by the rows of a text of one document.
ghost use Rattle.std.specs.Prelude.{◌≡◌, ◌<◌, [], ◌∷◌, IfOk, IfSome, None, Some, map, true};
ghost use Rattle.yq_core.{specs.Tree.scalar, specs.Entries.tree_step};
ghost use Rattle.yq_documents.{specs.Located.steps_of, specs.Reading.documents_of};
ghost use Rattle.yq_semantics.{specs.Operations.operation_of, specs.Program.{delete, literal, path, update_count}};
ghost use Rattle.yq_semantics.specs.View.{program_of, program_step, stage_of, term_of};
ghost use Rattle.yq_expr.specs.FixedPaths.{AreFixed, FindsNodeIn, HasRoomIn, IfAny, IsFixed, IsFixedOp, IsOpOf, IsSole, LeadsIn};
ghost use Rattle.yq_expr.{specs.FixedPaths.PlansAlone, specs.PlannedUpdates.ForUpdate};
ghost use Rattle.yq_planner.specs.ValidChanges.{HasValidValue};
ghost use Rattle.yq_expr.specs.FixedPaths as spec;

use crate::plans::effect::has_room;
use std::alloc::{AllocError, Global};
use yq_core::{DEPTH_LIMIT, Scalar, Step, Value};
use yq_documents::{Documents, Path};
use yq_lookup::CutText;
use yq_nodes::Node;
use yq_planner::has_comment;
use yq_semantics::{
    Assignment, Comment, CommentPlace, Op, Operator, PathStep, Program, Stage, Syntax, Term, Update,
};

/// Whether there is one document, and it has no alias.
pub fn is_sole(documents: &Documents<'_>) -> bool
    ensures { result ≡ true → IsSole (documents_of documents.now) }
{
    documents.count() == 1 && !Node::root(documents, 0).may_refer()
}

/// The step of a tree to which a step of a path leads in each tree, if it is one.
fn fixed_step(alloc: Global, step: &PathStep) -> Result<Option<Step>, AllocError>
    ensures { IfAny result (λ s. spec.fixed_step (program_step step.now) ≡ Some (tree_step s)) }
{
    match step {
        PathStep::Key(key) => Ok(Some(Step::Key(String::from_str(alloc, key.as_str())?))),
        PathStep::Index(index) if *index >= 0 => Ok(Some(Step::Index(*index as usize))),
        PathStep::Index(_) => Ok(None),
        PathStep::Each => Ok(None),
    }
}

/// The steps of a tree to which those of a path lead in each tree, if they are such.
fn fixed_steps(alloc: Global, steps: &[PathStep]) -> Result<Option<Vec<Step>>, AllocError>
    ensures { IfAny result (λ v. AreFixed steps.now v.items) }
{
    let mut fixed = Vec::with_capacity(alloc, steps.len())?;
    'each: for step in steps {
        let Some(next) = fixed_step(alloc, step)? else {
            return Ok(None);
        };
        fixed.push(next)?;
    }
    Ok(Some(fixed))
}

/// The steps of a pipe that is one path.
fn steps_alone(pipe: &[Stage]) -> Option<&[PathStep]>
    ensures { IfSome result (λ x. map stage_of pipe.now ≡ path (map program_step x.now) ∷ []) }
{
    let [Stage::Path(steps)] = pipe else {
        return None;
    };
    Some(steps.as_slice())
}

/// The path in the first document to which a pipe leads in each tree, if it is one path.
fn fixed_path(alloc: Global, pipe: &[Stage]) -> Result<Option<Path>, AllocError>
    ensures first { IfAny result (λ p. p.doc ≡ 0) }
    ensures fixed { IfAny result (λ p. IsFixed (map stage_of pipe.now) (steps_of p)) }
{
    let Some(own) = steps_alone(pipe) else {
        return Ok(None);
    };
    let found = fixed_steps(alloc, own)?;
    let Some(steps) = found else {
        return Ok(None);
    };
    Ok(Some(Path { doc: 0, steps }))
}

/// The scalar that is the one term of a sum.
#[tactic(auto, using(yq_planner::proofs::ScalarValues::scalar_value))]
fn scalar_alone(right: &[Term]) -> Option<&Scalar>
    ensures { IfSome result (λ s. map term_of right.now ≡
        literal (scalar None s.now.kind s.now.text) ∷ []) }
{
    let [Term::Literal(Value::Scalar(scalar))] = right else {
        return None;
    };
    Some(scalar)
}

/// The operation that puts a scalar at a fixed path.
fn put_scalar(alloc: Global, assignment: &Assignment) -> Result<Option<Op>, AllocError>
    ensures { IfAny result (IsOpOf (Update.Assign assignment.now)) }
{
    let Operator::Set = assignment.operator else {
        return Ok(None);
    };
    let right: &[Term] = &assignment.right;
    let Some(scalar) = scalar_alone(right) else {
        return Ok(None);
    };
    let found = fixed_path(alloc, &assignment.left)?;
    let Some(path) = found else {
        return Ok(None);
    };
    if path.steps.len() > DEPTH_LIMIT {
        return Ok(None);
    }
    let copied = Scalar::new(alloc, scalar.kind(), scalar.text())?;
    Ok(Some(Op::Replace(path, Value::Scalar(copied))))
}

/// The operation that removes what is at a fixed path.
fn remove_one(alloc: Global, pipe: &[Stage]) -> Result<Option<Op>, AllocError>
    ensures { IfAny result (λ op. IsFixedOp (delete (map stage_of pipe.now)) (operation_of op)) }
{
    let Some(path) = fixed_path(alloc, pipe)? else {
        return Ok(None);
    };
    if path.steps.is_empty() {
        return Ok(None);
    }
    Ok(Some(Op::Remove(path)))
}

/// The operation that sets the text of a comment at a fixed path.
fn comment_one(alloc: Global, update: &Update, comment: &Comment) -> Result<Option<Op>, AllocError>
    requires { update.now ≡ Update.Comment comment.now }
    ensures { IfAny result (IsOpOf update.now) }
{
    if !has_comment(update) {
        return Ok(None);
    }
    let Some(path) = fixed_path(alloc, &comment.left)? else {
        return Ok(None);
    };
    let text = String::from_str(alloc, comment.text.as_str())?;
    match comment.place {
        CommentPlace::Line => Ok(Some(Op::LineComment(path, text))),
        CommentPlace::Head => Ok(Some(Op::HeadComment(path, text))),
    }
}

/// The operation of an update that changes one node at a fixed path, if it does.
fn fixed_op(alloc: Global, update: &Update) -> Result<Option<Op>, AllocError>
    ensures { IfAny result (IsOpOf update.now) }
{
    match update {
        Update::Assign(assignment) => put_scalar(alloc, assignment),
        Update::Delete(pipe) => remove_one(alloc, pipe),
        Update::Comment(comment) => comment_one(alloc, update, comment),
    }
}

/// The same of update `nth` of a program.
fn fixed_op_at(alloc: Global, program: &Program, nth: usize) -> Result<Option<Op>, AllocError>
    requires { nth < update_count (program_of program.now) }
    ensures fixed { ForUpdate nth program.now (λ u. IfAny result (λ op. IsFixedOp u (operation_of op))) }
    ensures valid { IfAny result (λ op. HasValidValue (operation_of op)) }
{
    match program.syntax() {
        Syntax::Read(_) => Ok(None),
        Syntax::Updates(updates) => fixed_op(alloc, &updates[nth]),
    }
}

/// Whether a node is at a path. What is on the way there is known then.
fn leads(alloc: Global, cut: &mut CutText<'_, '_>, path: &Path) -> Result<bool, AllocError>
    ensures same { cut.new ≡ cut.old }
    ensures is { IfOk result (λ b. b ≡ true → LeadsIn cut.old path.now) }
{
    cut.go_along(alloc, path);
    let node = cut.node_at(alloc, path.doc, &path.steps)?;
    Ok(node.is_some())
}

/// Whether a node is at a path, and the text has room for a comment of it.
fn leads_with_room(
    alloc: Global,
    cut: &mut CutText<'_, '_>,
    path: &Path,
    place: CommentPlace,
) -> Result<bool, AllocError>
    ensures same { cut.new ≡ cut.old }
    ensures is { IfOk result (λ b. b ≡ true → HasRoomIn cut.old path.now place) }
{
    if !leads(alloc, cut, path)? {
        return Ok(false);
    }
    Ok(has_room(alloc, cut, path, place))
}

/// Whether the node that an operation changes is there, with room for the comment that it sets.
fn reaches(alloc: Global, cut: &mut CutText<'_, '_>, op: &Op) -> Result<bool, AllocError>
    ensures same { cut.new ≡ cut.old }
    ensures is { IfOk result (λ b. b ≡ true → FindsNodeIn cut.old op.now) }
{
    match op {
        Op::Replace(path, _) => leads(alloc, cut, path),
        Op::Append(..) => Ok(false),
        Op::Remove(path) => leads(alloc, cut, path),
        Op::LineComment(path, _) => leads_with_room(alloc, cut, path, CommentPlace::Line),
        Op::HeadComment(path, _) => leads_with_room(alloc, cut, path, CommentPlace::Head),
    }
}

/// The operation that carries out update `nth` of a program, counted from 0, on a text of one document
/// without aliases, if the update changes one node that is there, at a path of keys and indices. It is
/// planned by the rows on the way, which are known afterwards.
///
/// `None` if the program has no such update, if it is an update of another kind, or if the node or the
/// room for a comment isn't there.
pub fn plan_by_rows(
    alloc: Global,
    cut: &mut CutText<'_, '_>,
    program: &Program,
    nth: usize,
) -> Result<Option<Op>, AllocError>
    requires { IsSole (documents_of cut.old) }
    ensures same { cut.new ≡ cut.old }
    ensures within { IfAny result (λ _. nth < update_count (program_of program.now)) }
    ensures plans { IfAny result (PlansAlone nth program.now cut.old) }
{
    if nth >= program.updates() {
        return Ok(None);
    }
    let planned = fixed_op_at(alloc, program, nth)?;
    let Some(op) = planned else {
        return Ok(None);
    };
    let _text = cut.text();
    if !reaches(alloc, cut, &op)? {
        return Ok(None);
    }
    Ok(Some(op))
}
