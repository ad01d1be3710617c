//! What an edit changes of a text, as a unified diff, which `patch` takes.

mod context;
mod cutting;
mod lines;
mod name;
mod open;
mod part;
mod parts;
mod region;
mod step;
mod trim;
pub mod unified;
