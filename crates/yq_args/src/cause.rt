//! What is wrong with words that are no command.

use yq_failure::Failure;

/// What is wrong with words that are no command.
#[derive(Clone, Copy, Debug, PartialEq, Eq)]
pub enum UsageCause {
    /// A word isn't UTF-8.
    NotText,
    /// A word doesn't fit, or one is missing.
    Words,
    /// FILE is `-`.
    FileIsDash,
    /// The journal has the name of FILE.
    JournalIsFile,
    /// N is no number of 64 bits.
    BadCount,
    /// The folder of journals has no absolute path in UTF-8.
    JournalFolder,
    /// The name of the journal in the folder of journals would be too long.
    LongJournalName,
    /// The path of FILE isn't had, or isn't UTF-8, and the journal's name would be made of it.
    FilePath,
}

/// Why words are no command.
pub type WordsError = Failure<UsageCause>;
