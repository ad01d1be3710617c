//! The language of expressions: programs, what they mean on documents, and the operations that carry updates
//! out.
//! Laws of plans: the operations of an update fit, and make what it means.
#![tactic(auto)]

mod laws;
mod op;
mod parse_fault;
mod program;
mod refusal;
mod under;

pub use laws::{
    changes_apart, places_apart, plan_fits, plan_means, plan_refused, plan_rooms, rest_follows,
    rooms_alike, rooms_ready,
};
pub use op::Op;
pub use parse_fault::{Expected, ParseError, ParseFault};
pub use program::{
    Assignment, Comment, CommentPlace, Comparison, Condition, Operand, Operator, PathStep, Program,
    Stage, Syntax, Term, Update, is_index, is_simple,
};
pub use refusal::{ExprError, Refusal, Refused, in_document};
pub use under::{OpsUnder, push_part, push_steps, whole_ops, whole_removals};
