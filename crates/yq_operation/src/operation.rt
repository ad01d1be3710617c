//! One operation carried out on a text with its cut.
ghost use Rattle.std.specs.Prelude.{◌≡◌, IfErr, IfOk, OnErr};
ghost use Rattle.yq_semantics.specs.Operations.{operation_of};
ghost use Rattle.yq_documents.specs.Reading.{cut_of};
ghost use Rattle.yq_text.specs.Changing.{IsChange};
ghost use Rattle.yq_lookup.specs.Knowledge.{KnowledgeStays};
ghost use Rattle.yq_edit_laws.{specs.Answers.{Edits, EditFails}, specs.Valid.segments_by};
ghost use Rattle.yq_edit_laws.specs.Carried as spec;

use crate::exchanged::op_segments;
use std::alloc::Global;
use yq_edit_laws::on_the_way;
use yq_edit_rules::is_filled;
use yq_lookup::{CutText, Knowledge};
use yq_semantics::{ExprError, Op, Refusal};
use yq_text::{ChangedMiddle, Edited, changes, exchange};

/// From now on it is known what is on the way of an operation, and how far steps were searched, if its value
/// may ask for them.
fn go_on<'d, 'o: 'd>(alloc: Global, cut: &mut CutText<'d, '_>, op: &'o Op)
    ensures { cut.new ≡ cut.old }
{
    let way = op;
    on_the_way(alloc, cut, way);
    match op {
        Op::Replace(path, value) | Op::Append(path, _, value) => {
            if is_filled(value) {
                cut.search_steps(path.doc);
            }
        }
        Op::Remove(_) | Op::LineComment(_, _) | Op::HeadComment(_, _) => {}
    }
}

/// What an operation changes in a text with its cut.
fn change(alloc: Global, cut: &CutText<'_, '_>, op: &Op) -> Result<ChangedMiddle, ExprError>
    ensures ok { IfOk result (IsChange (segments_by (operation_of op.now) (cut_of cut.now))) }
    ensures err { IfErr result (λ e. EditFails e (spec.carry_one (operation_of op.now)
        (cut_of cut.now))) }
{
    let _text = cut.text();
    let segments = op_segments(alloc, cut, op)?;
    changes(alloc, &segments)?.ok_or(Refusal::TooLarge.error())
}

/// What an operation changes in a text with its cut. From then on that is known which is known after it: of its way,
/// and of steps.
pub fn change_one<'d, 'o: 'd>(
    alloc: Global,
    cut: &mut CutText<'d, '_>,
    known: &mut Knowledge,
    op: &'o Op,
) -> Result<ChangedMiddle, ExprError>
    ensures ok { IfOk result (IsChange (segments_by (operation_of op.now) (cut_of cut.old))) }
    ensures known { IfOk result (λ x. KnowledgeStays x.front (cut_of cut.old) known.new) }
    ensures err { IfErr result (λ e. EditFails e (spec.carry_one (operation_of op.now)
        (cut_of cut.old))) }
    ensures kept { OnErr result (known.new ≡ known.old) }
{
    go_on(alloc, cut, op);
    match change(alloc, cut, op) {
        Ok(changed) => {
            *known = cut.known_before(alloc, changed.front);
            Ok(changed)
        }
        Err(e) => Err(e),
    }
}

/// An operation carried out on a text with its cut, where the way to it goes on from what is known.
pub fn carry_along<'d, 'o: 'd>(
    alloc: Global,
    cut: &mut CutText<'d, '_>,
    op: &'o Op,
) -> Result<Edited, ExprError>
    ensures { Edits result (spec.carry_one (operation_of op.now) (cut_of cut.old)) }
{
    on_the_way(alloc, cut, op);
    let segments = op_segments(alloc, cut, op)?;
    exchange(alloc, &segments)?.ok_or(Refusal::TooLarge.error())
}

/// An operation carried out on a text with its cut.
pub fn carry_one<'d, 'o: 'd>(
    alloc: Global,
    cut: &CutText<'d, '_>,
    op: &'o Op,
) -> Result<Edited, ExprError>
    ensures { Edits result (spec.carry_one (operation_of op.now) (cut_of cut.now)) }
{
    let mut way = cut.again();
    carry_along(alloc, &mut way, op)
}
