//! What operations, updates and programs do to a text, and why they are refused; operands of operations.
//! Edits of flow collections, and the empty collection that replaces one whose only item or entry is removed.
//! Outside flow collections: laws of values, comments, and of one item or entry more or fewer.
#![tactic(auto)]

mod append;
mod edit;
pub mod edit_laws;
pub mod laws;
mod near;
mod operands;
mod put;
mod remove;
pub mod roots;
mod sole;
pub mod values;
mod ways;

pub use append::{append_in_flow, more_in_node};
pub use edit::{last_step, unchanged};
pub use near::{collection_near, part_index, part_near};
pub use operands::operand_holds;
pub use put::{put_in_flow, put_in_node};
pub use remove::remove_or_read;
pub use sole::emptying;
pub use ways::on_the_way;
