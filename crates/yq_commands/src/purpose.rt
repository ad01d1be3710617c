//! What a command does with its file.

use yq_args::Command;
use yq_store::Purpose;

/// A command's file, and what the command does with it.
pub fn purpose_of(command: &Command) -> (&str, Purpose) {
    match command {
        Command::Eval {
            words,
            in_place: false,
        } => (words.file.as_str(), Purpose::Print),
        Command::History { file, .. } => (file.as_str(), Purpose::List),
        Command::Eval { words, .. } => (words.file.as_str(), Purpose::Edit),
        Command::Undo { file, .. } | Command::Redo { file, .. } | Command::Squash { file, .. } => {
            (file.as_str(), Purpose::Replay)
        }
        Command::Help => ("", Purpose::Print),
    }
}
