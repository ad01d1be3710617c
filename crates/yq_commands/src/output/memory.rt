//! An output in memory, which can be made to fail.
ghost use Rattle.std.specs.Prelude.{◌≡◌, true, []};

use crate::output::Out;
use std::alloc::Global;
use std::fmt;

/// The bytes that were put.
#[derive(Drop)]
pub struct MemoryOut {
    bytes: Vec<u8>,
    calls: u64,
    fails: Option<u64>,
    failures: u64,
}

impl MemoryOut {
    /// An output without bytes.
    pub fn new(alloc: Global) -> MemoryOut
        ensures bytes { result.bytes.items ≡ [] }
        ensures failures { result.failures ≡ 0 }
    {
        MemoryOut {
            bytes: Vec::new(alloc),
            calls: 0,
            fails: None,
            failures: 0,
        }
    }

    /// Fails the call of this number, counted from 1 from now on.
    pub fn fail_at(&mut self, call: u64)
        ensures bytes { self.new.bytes ≡ self.old.bytes }
        ensures failures { self.new.failures ≡ self.old.failures }
    {
        self.calls = 0;
        self.fails = Some(call);
    }

    /// The bytes put so far.
    pub fn bytes(&self) -> &[u8]
        ensures { result.now ≡ self.now.bytes.items }
    {
        self.bytes.as_slice()
    }
}

impl Out for MemoryOut {
    ghost observable = { true };

    ghost taken = { λ w. w.bytes.items };

    ghost failures = { λ w. w.failures };

    fn put(&mut self, bytes: &[u8]) -> fmt::Result {
        self.calls = self.calls.saturating_add(1);
        if self.fails == Some(self.calls) || self.bytes.extend_from_slice(bytes).is_err() {
            self.failures = self.failures.saturating_add(1);
            return Err(fmt::Error);
        }
        Ok(())
    }
}
