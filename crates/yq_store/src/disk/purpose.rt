//! What commands do with real files.

/// What a command does with its file.
#[derive(Clone, Copy, PartialEq, Eq)]
pub enum Purpose {
    /// It prints what it makes of the file, which may be a device or a pipe, and looks at no journal.
    Print,
    /// It reads the file and its journal, and writes neither.
    List,
    /// It reads both, and writes them. Of a file that is too long for a text it reads what shows this.
    Edit,
    /// It goes by what the journal records, and writes both. A file that is too long for a text is
    /// not read, since what is read of it isn't all.
    Replay,
}
