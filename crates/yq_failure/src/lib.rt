//! The error of a call: memory ran out, or the fault for which it is refused.
#![tactic(auto)]

mod failure;

pub use failure::Failure;
