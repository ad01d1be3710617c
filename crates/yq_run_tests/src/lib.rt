//! Tests of lists of commands, over a store and an output in memory that fail.
#![tactic(auto)]

#[cfg(test)]
mod asked;
#[cfg(test)]
mod failing_calls;
#[cfg(test)]
mod lists;
#[cfg(test)]
mod refused_memory;
