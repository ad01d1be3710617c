//! Updates of programs planned on documents: which operations carry one out, or why none do.
#![tactic(auto)]

mod memory;
mod plans;
mod sizes;
mod terms;
mod verdicts;

pub use memory::heavy::is_heavy;
pub use plans::fixed::{is_sole, plan_by_rows};
pub use plans::parts::{PlanPart, plan_part};
pub use plans::placed::push_change;
pub use plans::planning::{plan, plan_under};
pub use verdicts::judging::judge;
pub use yq_core::{Value, copied_steps};
pub use yq_eval::{Match, matches};
pub use yq_expr_parser::{ParseError, one_program, parse_expr};
pub use yq_semantics::{
    Assignment, Comment, CommentPlace, Comparison, Condition, ExprError, Op, Operand, Operator,
    PathStep, Program, Refusal, Stage, Syntax, Term, Update, changes_apart, places_apart,
    plan_fits, plan_means, plan_refused, plan_rooms, rest_follows, rooms_alike, rooms_ready,
};
