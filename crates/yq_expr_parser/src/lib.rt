//! Expressions parsed into programs.
#![tactic(auto)]

mod front;
mod laws;
mod parse;
mod pattern;
mod survey;
mod token;

pub use laws::{one_outcome, one_program, one_token_list};
pub use parse::parse_expr;
pub use yq_semantics::{ParseError, ParseFault};
