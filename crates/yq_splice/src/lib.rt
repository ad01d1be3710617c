//! Programs and operations carried out on a text, as splices, and sessions that keep a text with its rows.
#![tactic(auto)]

mod borrowed;
mod carrying;
pub mod edit_laws;
mod editing;
mod in_parts;
mod others;
mod planned;
mod session;
mod under;
mod updating;

pub use carrying::apply_op;
pub use editing::edit;
pub use planned::carry_plan;
pub use session::Session;
pub use yq_edit_rules::print;
pub use yq_text::{Edited, Splice};
