//! Whose journals are believed, and which users may replace files.
ghost use Rattle.std.{specs.Prelude.◌≡◌, specs.Fs.metadata_mode};
ghost use Rattle.yq_store.specs.Trust as spec;

use std::fs::{self, Metadata};
use std::os::unix::fs::MetadataExt;
use std::rt::Files;

/// The user who may read and write all files.
const ROOT: u32 = 0;

/// The bit that lets the group of a file write it.
const GROUP_WRITES: u32 = 0o020;

/// The bit that lets everyone write a file.
const EVERYONE_WRITES: u32 = 0o002;

/// The bit that lets only the owners rename over a file in a folder, and root.
const STICKY: u32 = 0o1000;

/// What the system reports of the run itself belongs to the user of the run.
const OWN_RUN: &str = "/proc/self";

/// The user of the run, where the system reports it.
pub fn user_of_run<R: Files>(rt: &R) -> Option<u32> {
    match fs::metadata(rt, OWN_RUN) {
        Ok(run) => Some(run.uid()),
        Err(_) => None,
    }
}

/// The owner and the group of a file, a journal or a link: who put it there.
pub type Maker = (u32, u32);

/// Who put this there.
pub fn maker_of(found: &Metadata) -> Maker {
    (found.uid(), found.gid())
}

/// Who may write a file: its owner, and whom its mode allows it.
#[derive(Clone, Copy)]
pub struct Writers {
    pub owner: u32,
    pub group: u32,
    pub mode: u32,
}

impl Writers {
    /// Those of a file, as the system reports it.
    pub fn of(file: &Metadata) -> Writers
        ensures { result.mode ≡ metadata_mode file.now }
    {
        Writers {
            owner: file.uid(),
            group: file.gid(),
            mode: file.mode(),
        }
    }
}

/// Who may put something in the place of a file or next to it: the user of the run, root, and who may
/// write the file.
#[derive(Clone, Copy)]
pub struct Trust {
    user: u32,
    file: Writers,
}

impl Trust {
    /// In a run of this user with this file; of root, whose journals are believed anyway, where the system
    /// doesn't report the user.
    pub fn of_user(user: Option<u32>, file: Writers) -> Trust
        ensures { result ≡ spec.trust_of user file }
    {
        let user = match user {
            Some(user) => user,
            None => ROOT,
        };
        Trust { user, file }
    }

    /// In the same run, with another file.
    pub fn with_file(&self, file: Writers) -> Trust
        ensures { result ≡ spec.with_file self.now file }
    {
        Trust {
            user: self.user,
            file,
        }
    }

    /// Whether the maker of a journal, or of a link, may write the file.
    pub fn covers(&self, owner: u32, group: u32) -> bool
        ensures { result ≡ spec.covers self.now owner group }
    {
        owner == self.user
            || owner == ROOT
            || owner == self.file.owner
            || self.file.mode & EVERYONE_WRITES != 0
            || self.file.mode & GROUP_WRITES != 0 && group == self.file.group
    }

    /// Whether nobody may write a journal, which has so many hard links, who may not write the file.
    pub fn believes(&self, journal: Writers, links: u64) -> bool
        ensures { result ≡ spec.believes self.now journal links }
    {
        let is_covered = self.covers(journal.owner, journal.group);
        let is_closed = keeps_others_out(self.file, journal);
        links <= 1 && is_covered && is_closed
    }

    /// Whether the sticky bit of a folder lets the user of the run rename over the file of an owner.
    pub fn may_replace(&self, folder: Writers, owner: u32) -> bool
        ensures { result ≡ spec.may_replace self.now folder owner }
    {
        folder.mode & STICKY == 0
            || self.user == ROOT
            || self.user == folder.owner
            || self.user == owner
    }
}

/// Whether, but for its owner, nobody may write a journal by its mode who may not write the file by the
/// file's.
fn keeps_others_out(file: Writers, journal: Writers) -> bool
    ensures { result ≡ spec.keeps_others_out file journal }
{
    let by_all = journal.mode & EVERYONE_WRITES != 0;
    let by_group = journal.mode & GROUP_WRITES != 0;
    file.mode & EVERYONE_WRITES != 0
        || !by_all && (!by_group || file.mode & GROUP_WRITES != 0 && journal.group == file.group)
}
