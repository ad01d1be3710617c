//! Stores of named files: real ones on a disk, and one in memory.
#![tactic(auto)]

mod disk;
mod folder;
mod memory;
mod store;

pub use disk::DiskStore;
pub use disk::hint::JournalHint;
pub use disk::purpose::Purpose;
pub use folder::WithFolder;
pub use memory::{Left, MemoryStore};
pub use store::Store;
