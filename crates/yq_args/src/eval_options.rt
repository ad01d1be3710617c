//! Options of `eval`.

/// What `eval` is asked apart from where its text goes.
#[derive(Clone, Copy, Debug, PartialEq, Eq)]
pub struct EvalOptions {
    /// `-e`: a read is to find another value than null and false.
    pub exit_status: bool,
    /// `-N`: no marker is printed between documents.
    pub no_doc: bool,
    /// `-d`: an update prints what it changes.
    pub diff: bool,
    /// `--expect-change`: an update is to change a byte.
    pub expect_change: bool,
}
