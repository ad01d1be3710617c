//! Commands.
ghost use Rattle.std.specs.Prelude.{◌≡◌, IfOk, IfErr, string_bytes, false};
ghost use Rattle.yq_args.specs.OtherJournal as spec;

use crate::{EvalWords, UsageCause};

/// What the words of a command line ask for. A command's journal has another name than its file.
#[derive(Drop)]
pub enum Command {
    /// Reads or edits a file by an expression.
    Eval {
        words: EvalWords,
        in_place: bool,
    },
    /// Takes the last edit of a file back.
    Undo {
        file: String,
        journal: String,
    },
    /// Makes the edit again that was taken back last.
    Redo {
        file: String,
        journal: String,
    },
    /// Lists the edits of a file.
    History {
        file: String,
        journal: String,
        /// Each with what it changed.
        diffs: bool,
    },
    /// Joins the last edits of a file into one.
    Squash {
        n: u64,
        file: String,
        journal: String,
    },
    /// Prints the help.
    Help,
}

impl Command {
    /// Whether this is the name of the command's file.
    fn names_file(&self, name: &str) -> bool
        ensures { result ≡ spec.names_file self.now name.now }
    {
        match self {
            Command::Eval { words, .. } => name == words.file.as_str(),
            Command::Undo { file, .. }
            | Command::Redo { file, .. }
            | Command::History { file, .. }
            | Command::Squash { file, .. } => name == file.as_str(),
            Command::Help => false,
        }
    }

    /// The same command, with another journal; refused where that has the name of the file.
    pub fn with_journal(self, journal: String) -> Result<Command, UsageCause>
        ensures ok { IfOk result (λ c. c ≡ spec.with_journal self journal) }
        ensures apart { IfOk result (λ c. spec.names_file self (string_bytes journal) ≡ false) }
        ensures err { IfErr result (spec.IsItsFile self journal) }
    {
        if self.names_file(&journal) {
            return Err(UsageCause::JournalIsFile);
        }
        match self {
            Command::Eval { words, in_place } => Ok(Command::Eval {
                words: EvalWords { journal, ..words },
                in_place,
            }),
            Command::Undo {
                file,
                journal: _old,
            } => Ok(Command::Undo { file, journal }),
            Command::Redo {
                file,
                journal: _old,
            } => Ok(Command::Redo { file, journal }),
            Command::History {
                file,
                journal: _old,
                diffs,
            } => Ok(Command::History {
                file,
                journal,
                diffs,
            }),
            Command::Squash {
                n,
                file,
                journal: _old,
            } => Ok(Command::Squash { n, file, journal }),
            Command::Help => Ok(Command::Help),
        }
    }
}
