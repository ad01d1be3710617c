//! Commands carried out over a store: edits of files, and lists of commands with an answer to each.
#![tactic(auto)]

mod editing;
mod evaluating;
mod executing;
mod run;

pub use executing::execute;
pub use run::run_list;
pub use yq_commands::{
    Answer, CountedOut, Hint, MemoryOut, Out, StandardOut, as_slices, asked_command, command_of,
    has_colours, own_words, purpose_of, put_help, report_usage,
};
