//! What commands do: which command words ask for, what it does to a file and its journal, and what it
//! shows and answers.
#![tactic(auto)]

mod answer;
mod answers;
mod called;
mod commits;
pub mod help;
mod hint;
mod journals;
mod output;
mod parsed;
mod purpose;
mod reading;
mod reads;
mod words;

pub use answer::Answer;
pub use answers::answer_of;
pub use called::{as_slices, asked_command, own_words, put_help, report_usage};
pub use commits::commit;
pub use hint::Hint;
pub use output::Out;
pub use output::colours::has_colours;
pub use output::counted::CountedOut;
pub use output::memory::MemoryOut;
pub use output::standard::StandardOut;
pub use parsed::Parsed;
pub use purpose::purpose_of;
pub use reading::{parse, utf8_text};
pub use reads::show_read;
pub use words::command_of;
