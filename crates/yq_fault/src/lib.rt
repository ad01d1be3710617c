//! Why a command is refused, and the line that says so.
#![tactic(auto)]

mod causes;
mod fault;
mod named;

pub use fault::Fault;
pub use named::{EditError, NamedRefusal, unnamed};
