//! Tests of the public calls on texts, documents, programs, edits, sessions and journals: what their
//! contracts leave open. [`hold_memory`] is for all tests.
#![tactic(auto)]

#[cfg(test)]
mod applied;
#[cfg(test)]
mod documents;
#[cfg(test)]
mod growths;
#[cfg(test)]
mod journals;
#[cfg(test)]
mod longest;
mod memory;
#[cfg(test)]
mod nodes;
#[cfg(test)]
mod scanned;
#[cfg(test)]
mod sessions;
#[cfg(test)]
mod texts;

pub use memory::hold_memory;
