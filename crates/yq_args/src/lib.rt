//! The words of the command line, read with `clap` as a command.
//! For words that are no command: lines that say what is wrong with them.
#![tactic(auto)]

mod asked;
mod cause;
mod command;
mod command_word;
mod eval_options;
mod eval_words;
mod explain_option;
mod found;
mod journal_name;
mod line;
mod lines;
mod named;
mod options;
mod setting;
mod spelling;
mod words;

pub use asked::command_in;
pub use cause::{UsageCause, WordsError};
pub use command::Command;
pub use command_word::{is_command_word, split_command};
pub use eval_options::EvalOptions;
pub use eval_words::EvalWords;
pub use explain_option::{asked_code, asks_lines};
pub use journal_name::journal_in_folder;
pub use line::matched;
pub use lines::{first_name, usage_text};
pub use named::push_named;
pub use words::{names_journal, read_words};
