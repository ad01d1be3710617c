//! Stores of named files.
ghost use Rattle.std.specs.Prelude.{◌≡◌, ℕ, Bool, IsTrue, OnOk, OnErr, IfErr};
ghost use Rattle.yq_store.{specs.FileMap.FileMap, specs.Count.{failures_after, IsOfRead, IsOfWrite}};
ghost use Rattle.yq_store.specs.Calls.{Call, bytes_read, no_calls, reads, writes};
ghost use Rattle.yq_store.specs.Changes.{ReadsHeld, AbsentIfNotThere, HasPut, MayWrite, StaysWithoutMemory, WritesOnly};

use std::alloc::Global;
use yq_fault::Fault;

/// How many calls of a store there were, and how many failed, each up to the last value of 64 bits.
#[derive(Clone, Copy)]
pub(crate) struct Counts {
    pub(crate) reads: u64,
    pub(crate) writes: u64,
    pub(crate) failures: u64,
}

impl Counts {
    /// Before the first call.
    pub(crate) fn none() -> Counts
        ensures { result ≡ no_calls }
    {
        Counts {
            reads: 0,
            writes: 0,
            failures: 0,
        }
    }
}

/// A store of named files.
pub trait Store {
    /// Whether it keeps what it was given. What is said of the content holds only then.
    ghost keeps: { Bool };

    /// What each name holds.
    ghost content: { Self → FileMap };

    /// How many calls failed, up to the last value of 64 bits, where it stays.
    ghost failures: { Self → ℕ };

    /// From the first store, this call, with its answer, leads to the second. Nothing else is known to
    /// give that: where a contract over every store says it, the call was made.
    ghost leads: { Self → Call → Self → Type 0 };

    /// The bytes of a file.
    fn read(&mut self, alloc: Global, name: &str) -> Result<Vec<u8>, Fault>
        ensures found { IsTrue keeps → ReadsHeld (content self.old) name.now result }
        ensures absent { IsTrue keeps → AbsentIfNotThere (content self.old) name.now result }
        ensures fault { IfErr result IsOfRead }
        ensures same { IsTrue keeps → content self.new ≡ content self.old }
        ensures count { failures self.new ≡ failures_after result (failures self.old) }
        ensures call { leads self.old (reads name.now (bytes_read result)) self.new };

    /// Gives a name new bytes. A write that fails leaves the old bytes or the whole new ones.
    fn replace(&mut self, name: &str, bytes: &[u8]) -> Result<(), Fault>
        ensures written { IsTrue keeps → OnOk result (HasPut content self.old self.new name.now bytes.now) }
        ensures err { IsTrue keeps → OnErr result (MayWrite content self.old self.new name.now bytes.now) }
        ensures memory { IsTrue keeps → StaysWithoutMemory content self.old self.new result }
        ensures fault { IfErr result IsOfWrite }
        ensures others { IsTrue keeps → WritesOnly content self.old self.new name.now }
        ensures count { failures self.new ≡ failures_after result (failures self.old) }
        ensures call { leads self.old (writes name.now bytes.now result) self.new };
}
