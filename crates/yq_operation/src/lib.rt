//! One operation carried out on a text with its cut: what it exchanges there, by its kind and by what is at
//! its place.
#![tactic(auto)]

mod exchanged;
mod operation;

pub use exchanged::op_segments;
pub use operation::{carry_along, carry_one, change_one};
