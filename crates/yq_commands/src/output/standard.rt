//! Standard output.
ghost use Rattle.std.specs.Prelude.{false, []};

use crate::output::Out;
use std::io::{ErrorKind, Print, Write};
use std::{fmt, io};

/// What goes to standard output.
#[derive(Drop)]
pub struct StandardOut<R: Print + Drop> {
    rt: R,
    failures: u64,
    is_closed: bool,
}

impl<R: Print + Drop> StandardOut<R> {
    /// The standard output that `rt` prints to.
    pub fn new(rt: R) -> Self {
        StandardOut {
            rt,
            failures: 0,
            is_closed: false,
        }
    }

    /// Whether it took nothing because its reader has closed the pipe.
    pub fn is_closed(&self) -> bool {
        self.is_closed
    }
}

impl<R: Print + Drop> Out for StandardOut<R> {
    ghost observable = { false };

    ghost taken = { λ _. [] };

    ghost failures = { λ w. w.failures };

    fn put(&mut self, bytes: &[u8]) -> fmt::Result {
        match io::writer(&self.rt).write_all(bytes) {
            Ok(()) => Ok(()),
            Err(e) => {
                self.is_closed = e.kind() == ErrorKind::BrokenPipe;
                self.failures = self.failures.saturating_add(1);
                Err(fmt::Error)
            }
        }
    }
}
