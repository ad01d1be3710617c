//! Operands of operations that come from outside: the values that they hold are valid.
ghost use Rattle.yq_semantics.specs.Operations.{operation_of};
ghost use Rattle.yq_edit_rules.specs.Operands.{HasOperand};

use yq_flow_edits::value_holds;
use yq_semantics::Op;

/// The operand of an operation is valid, as each is that the code holds.
#[tactic(auto, using(crate::proofs::OperandLaws::key_valid, crate::proofs::OperandLaws::text_valid))]
pub fn operand_holds(op: &Op)
    ensures { HasOperand (operation_of op.now) }
{
    match op {
        Op::Replace(_, value) => value_holds(value),
        Op::Append(_, _, value) => value_holds(value),
        Op::Remove(_) | Op::LineComment(_, _) | Op::HeadComment(_, _) => {}
    }
}
