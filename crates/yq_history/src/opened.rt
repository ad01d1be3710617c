//! A file and its journal: their names, and what was read of both.
ghost use Rattle.std.specs.Prelude.{IsNone};

use yq_journal::Journal;

/// The names of a file and of its journal.
#[derive(Clone, Copy)]
pub struct Pair<'p> {
    pub file: &'p str,
    pub journal: &'p str,
}

/// A file and its journal, read and settled: no move is open.
#[derive(Drop)]
pub struct OpenPair<'p> {
    pub pair: Pair<'p>,
    pub text: Vec<u8>,
    pub state: Journal,
    ghost at_rest: { IsNone state.pending },
}
