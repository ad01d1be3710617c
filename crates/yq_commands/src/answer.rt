//! Answers to commands.

use yq_fault::Fault;

/// The answer to a command.
#[derive(Debug, Drop)]
pub enum Answer {
    /// It was carried out.
    Done,
    /// It was carried out, and what it was asked for isn't there.
    NoMatch,
    /// It was refused.
    Refused(Fault),
}
