//! A file that was found, as the system reports it.
ghost use Rattle.std.{specs.Prelude.◌≡◌, specs.Fs.metadata_mode};

use crate::disk::state::FileState;
use crate::disk::trust::Writers;
use std::fs::Metadata;
use std::os::unix::fs::MetadataExt;

/// A file that was found, as the system reports it.
#[derive(Clone, Copy)]
pub struct FoundFile {
    pub state: FileState,
    pub writers: Writers,
    /// How many hard links it has.
    pub links: u64,
    /// Whether it is a regular file.
    pub is_file: bool,
}

impl FoundFile {
    /// The file of which the system reports this.
    pub fn of(found: &Metadata) -> FoundFile
        ensures { result.writers.mode ≡ metadata_mode found.now }
    {
        FoundFile {
            state: FileState::of(found),
            writers: Writers::of(found),
            links: found.nlink(),
            is_file: found.is_file(),
        }
    }
}
