//! Standard output, and how many lines it took, where that is asked.
ghost use Rattle.std.specs.Prelude.{[], false};

use crate::output::Out;
use crate::output::colours::coloured;
use crate::output::standard::StandardOut;
use memchr::memchr_iter;
use std::alloc::Global;
use std::fmt;

/// Standard output, and how many lines it took, where that is asked.
#[derive(Drop)]
pub struct CountedOut<'a> {
    out: StandardOut<&'a HostRuntime>,
    alloc: Global,
    has_colours: bool,
    is_counting: bool,
    lines: u64,
    failures: u64,
}

impl<'a> CountedOut<'a> {
    /// The standard output that `rt` prints to.
    pub fn new(rt: &'a HostRuntime) -> Self {
        CountedOut {
            out: StandardOut::new(rt),
            alloc: rt.alloc(),
            has_colours: false,
            is_counting: false,
            lines: 0,
            failures: 0,
        }
    }

    /// Has the lines of diffs in colours, or not.
    pub fn colour(&mut self, has_colours: bool) {
        self.has_colours = has_colours;
    }

    /// Has the lines counted that it takes from now on, or not.
    pub fn count(&mut self, is_counting: bool) {
        self.is_counting = is_counting;
    }

    /// Whether it took nothing because its reader has closed the pipe.
    pub fn is_closed(&self) -> bool {
        self.out.is_closed()
    }

    /// How many lines it took while it counted them.
    pub fn lines(&self) -> u64 {
        self.lines
    }
}

/// Puts bytes to standard output, in colours where these are asked for and there is memory for them.
fn put_coloured(
    out: &mut StandardOut<&HostRuntime>,
    alloc: Global,
    has_colours: bool,
    bytes: &[u8],
) -> fmt::Result {
    if !has_colours {
        return out.put(bytes);
    }
    let Ok(text) = std::str::from_utf8(bytes) else {
        return out.put(bytes);
    };
    match coloured(alloc, text) {
        Ok(lines) => out.put(lines.as_bytes()),
        Err(_) => out.put(bytes),
    }
}

/// How many line feeds bytes have.
fn line_feeds(bytes: &[u8]) -> u64 {
    memchr_iter(b'\n', bytes).count() as u64
}

impl<'a> Out for CountedOut<'a> {
    ghost observable = { false };

    ghost taken = { λ _. [] };

    ghost failures = { λ w. w.failures };

    fn put(&mut self, bytes: &[u8]) -> fmt::Result {
        match put_coloured(&mut self.out, self.alloc, self.has_colours, bytes) {
            Ok(()) => {
                if self.is_counting {
                    self.lines = self.lines.saturating_add(line_feeds(bytes));
                }
                Ok(())
            }
            Err(error) => {
                self.failures = self.failures.saturating_add(1);
                Err(error)
            }
        }
    }
}
