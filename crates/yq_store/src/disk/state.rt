//! What distinguishes one file from another, and whether it was changed.
ghost use Rattle.std.specs.Prelude.{◌≡◌};
ghost use Rattle.yq_store.specs.Belief as spec;

use crate::disk::links::is_absence;
use std::fs::Metadata;
use std::os::unix::fs::MetadataExt;
use std::rt::Files;
use std::time::Duration;
use std::{fs, io};

/// Which file it is, how many bytes it has, and when its bytes and its rights were changed last.
#[derive(Clone, Copy, PartialEq, Eq)]
pub struct FileState {
    device: u64,
    inode: u64,
    size: u64,
    written: (i64, i64),
    changed: (i64, i64),
}

impl FileState {
    /// That of a file, as the system reports it.
    pub fn of(file: &Metadata) -> FileState {
        FileState {
            device: file.dev(),
            inode: file.ino(),
            size: file.size(),
            written: (file.mtime(), file.mtime_nsec()),
            changed: (file.ctime(), file.ctime_nsec()),
        }
    }

    /// When the file was changed last, since 1970.
    pub fn time(&self) -> Duration {
        let (seconds, nanoseconds) = self.changed;
        let part = Duration::from_nanos(u64::try_from(nanoseconds).unwrap_or(0));
        Duration::from_secs(u64::try_from(seconds).unwrap_or(0)).saturating_add(part)
    }

    /// Whether both are states of one file, changed in between or not.
    pub fn is_same(&self, other: FileState) -> bool
        ensures { result ≡ spec.is_same_file self.now other }
    {
        self.device == other.device && self.inode == other.inode
    }

    /// Whether this is the state of a file, changed since then or not.
    pub fn is_of(&self, file: &Metadata) -> bool {
        self.is_same(FileState::of(file))
    }
}

/// Whether a name leads to this file, changed or not.
pub fn leads_to<R: Files>(rt: &R, name: &str, file: &Metadata) -> io::Result<bool> {
    match fs::metadata(rt, name) {
        Ok(found) => Ok(FileState::of(&found).is_of(file)),
        Err(e) if is_absence(&e) => Ok(false),
        Err(e) => Err(e),
    }
}
