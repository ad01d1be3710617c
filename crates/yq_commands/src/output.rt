//! Outputs.
ghost use Rattle.std.specs.Prelude.{◌≡◌, ◌++◌, ℕ, List, Bool, IsTrue, OnOk};
ghost use Rattle.yq_store.specs.Count.{after_put};

pub mod colours;
pub mod counted;
pub mod memory;
pub mod standard;

use std::fmt;

/// What takes the program's output.
pub trait Out {
    /// Whether it reports what it was given. What is said of its bytes holds only then.
    ghost observable: { Bool };

    /// The bytes put so far.
    ghost taken: { Self → List ℕ };

    /// How many calls failed, up to the last value of 64 bits, where it stays.
    ghost failures: { Self → ℕ };

    /// Puts bytes after those put so far. It fails where not all were taken; nothing is known of them then.
    fn put(&mut self, bytes: &[u8]) -> fmt::Result
        ensures appended { IsTrue observable → OnOk result (taken self.new ≡ taken self.old ++ bytes.now) }
        ensures count { failures self.new ≡ after_put result (failures self.old) };
}
