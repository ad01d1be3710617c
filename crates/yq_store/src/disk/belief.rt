//! Which journals are believed, by what the system reports of them.
ghost use Rattle.std.specs.Prelude.{◌≡◌, IfOk};
ghost use Rattle.yq_store.specs.Belief as spec;

use crate::disk::found::FoundFile;
use crate::disk::reading::read_within;
use crate::disk::state::FileState;
use crate::disk::trust::{Maker, Trust};
use std::alloc::Global;
use std::fs::File;
use std::io;
use std::io::ErrorKind;

/// Whether nobody may write a journal who may not write its file, and all links to it are of those who
/// may write both: other links could lead to the journal of another file.
pub fn is_trusted(journal: &FoundFile, links: &[Maker], trust: Trust) -> bool
    ensures { result ≡ spec.is_trusted journal.now links.now trust }
{
    let of_journal = trust.with_file(journal.writers);
    'links: for link in links {
        let (owner, group) = *link;
        if !trust.covers(owner, group) || !of_journal.covers(owner, group) {
            return false;
        }
    }
    trust.believes(journal.writers, journal.links)
}

/// Why a journal, to which these links lead, isn't read, if so: it is the file itself, or isn't trusted.
pub fn unbelieved(
    journal: &FoundFile,
    links: &[Maker],
    trust: Trust,
    file: FileState,
) -> Option<ErrorKind>
    ensures { result ≡ spec.unbelieved journal.now links.now trust file }
{
    if file.is_same(journal.state) {
        Some(ErrorKind::InvalidInput)
    } else if is_trusted(journal, links, trust) {
        None
    } else {
        Some(ErrorKind::PermissionDenied)
    }
}

/// A journal that is open, as the system reports it since then, and who made the links to it.
#[derive(Drop)]
pub struct OpenJournal {
    file: File,
    found: FoundFile,
    links: Vec<Maker>,
}

/// The bytes of a journal, and what they were believed by.
#[derive(Drop)]
pub struct BelievedJournal {
    bytes: Vec<u8>,
    found: FoundFile,
    links: Vec<Maker>,
}

impl OpenJournal {
    /// An open file, to which these links lead.
    pub fn of(file: File, links: Vec<Maker>) -> io::Result<OpenJournal> {
        let found = FoundFile::of(&file.metadata()?);
        Ok(OpenJournal { file, found, links })
    }

    /// The bytes of the journal, where it is believed and has so many of them at most.
    pub fn read(
        self,
        alloc: Global,
        trust: Trust,
        file: FileState,
        most: u64,
    ) -> io::Result<BelievedJournal>
        ensures { IfOk result (spec.IsBelieved trust file) }
    {
        let OpenJournal {
            file: journal,
            found,
            links,
        } = self;
        if let Some(why) = unbelieved(&found, &links, trust, file) {
            return Err(io::Error::from(why));
        }
        let bytes = read_within(alloc, journal, most)?;
        Ok(BelievedJournal {
            bytes,
            found,
            links,
        })
    }
}

impl BelievedJournal {
    /// The bytes.
    pub fn into_bytes(self) -> Vec<u8> {
        let BelievedJournal { bytes, .. } = self;
        bytes
    }
}
