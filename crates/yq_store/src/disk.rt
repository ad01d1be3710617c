//! A store of real files.
ghost use Rattle.std.specs.Prelude.{◌≡◌, false};
ghost use Rattle.yq_store.specs.Calls.{CountsCall};
ghost use Rattle.std.specs.FinMap as map;

mod as_read;
mod belief;
mod edited;
mod found;
pub mod hint;
mod journal;
mod journal_limit;
mod links;
mod locking;
mod old_journal;
mod opening;
mod ownership;
mod protection;
pub mod purpose;
mod reading;
mod replacing;
mod state;
mod temporary;
mod trust;

use crate::disk::edited::{EditedFile, read_edited, write_journal, write_own};
use crate::disk::hint::{JournalHint, hint_of};
use crate::disk::journal::read_journal;
use crate::disk::links::is_absence;
use crate::disk::locking::LockRequest;
use crate::disk::purpose::Purpose;
use crate::disk::reading::read_text;
use crate::store::{Counts, Store};
use std::alloc::Global;
use std::fs::File;
use std::io::{Eprint, ErrorKind};
use std::random::RandomSource;
use std::rt::{Env, Files};
use std::time::Clock;
use std::{fs, io};
use yq_fault::Fault;

/// Real files, for one command, which reads its file before it reads or writes anything else. A
/// temporary file with the new bytes is written next to the old file, and renamed over it. What is
/// said of a store's content holds for none of this.
#[derive(Drop)]
pub struct DiskStore<'a, R: Drop> {
    rt: R,
    file: &'a str,
    purpose: Purpose,
    edited: Option<EditedFile>,
    reports: bool,
    hint: Option<JournalHint>,
    counts: Counts,
}

impl<'a, R: Drop> DiskStore<'a, R> {
    /// A store over the files that `rt` opens, for a command with this purpose on this file.
    pub fn new(rt: R, file: &'a str, purpose: Purpose) -> Self {
        DiskStore {
            rt,
            file,
            purpose,
            edited: None,
            reports: false,
            hint: None,
            counts: Counts::none(),
        }
    }

    /// The same store, which says on standard error, or doesn't, where it waits for another run for
    /// longer than a second.
    pub fn reporting(self, reports: bool) -> Self {
        let mut store = self;
        store.reports = reports;
        store
    }

    /// What a user may do where the journal was neither read nor written.
    pub fn hint(&self) -> Option<JournalHint> {
        self.hint
    }
}

impl<
    'a,
    R: Files<File = File> + RandomSource + Clock + Eprint + Env + Alloc<A = Global> + Drop,
> DiskStore<'a, R> {
    /// The bytes of a file, if there is one. A command that looks at a journal locks its file first.
    fn bytes_of(&mut self, alloc: Global, name: &str) -> io::Result<Option<Vec<u8>>>
        ensures counts { self.new.counts ≡ self.old.counts }
    {
        if self.purpose == Purpose::Print {
            return match fs::open(&self.rt, name) {
                Ok(file) => read_text(alloc, file).map(Some),
                Err(e) if is_absence(&e) => Ok(None),
                Err(e) => Err(e),
            };
        }
        if name == self.file {
            let request = LockRequest {
                name,
                purpose: self.purpose,
                reports: self.reports,
            };
            return read_edited(&self.rt, &mut self.edited, &request);
        }
        let Some(edited) = &self.edited else {
            return Err(io::Error::from(ErrorKind::Other));
        };
        let writes = self.purpose != Purpose::List;
        let journal = read_journal(&self.rt, name, edited.trust, edited.as_read.state, writes);
        self.hint = hint_of(&journal);
        // What only lists has read all: it holds nobody back while it prints.
        if self.purpose == Purpose::List {
            self.edited = None;
        }
        match journal? {
            Some(journal) => Ok(Some(journal.into_bytes())),
            None => Ok(None),
        }
    }

    /// Replaces a file. Lack of memory is an error only where every file is as before.
    fn put(&mut self, name: &str, bytes: &[u8]) -> io::Result<()>
        ensures counts { self.new.counts ≡ self.old.counts }
    {
        match &mut self.edited {
            None => Err(io::Error::from(ErrorKind::Other)),
            Some(edited) if name == self.file => write_own(&self.rt, edited, name, bytes),
            Some(edited) => {
                let file = self.file;
                let written = write_journal(&self.rt, edited, file, name, bytes);
                self.hint = hint_of(&written);
                written
            }
        }
    }
}

impl<
    'a,
    R: Files<File = File> + RandomSource + Clock + Eprint + Env + Alloc<A = Global> + Drop,
> Store for DiskStore<'a, R> {
    ghost keeps = { false };

    ghost content = { λ _. map.empty };

    ghost failures = { λ s. s.counts.failures };

    ghost leads = { λ s call t. CountsCall s.counts call t.counts };

    fn read(&mut self, alloc: Global, name: &str) -> Result<Vec<u8>, Fault> {
        self.counts.reads = self.counts.reads.saturating_add(1);
        match self.bytes_of(alloc, name) {
            Ok(Some(bytes)) => Ok(bytes),
            Ok(None) => Err(Fault::NotThere),
            Err(e) if e.kind() == ErrorKind::OutOfMemory => Err(Fault::OutOfMemory),
            Err(_) => {
                self.counts.failures = self.counts.failures.saturating_add(1);
                Err(Fault::ReadFailed)
            }
        }
    }

    fn replace(&mut self, name: &str, bytes: &[u8]) -> Result<(), Fault> {
        self.counts.writes = self.counts.writes.saturating_add(1);
        match self.put(name, bytes) {
            Ok(()) => Ok(()),
            Err(e) if e.kind() == ErrorKind::OutOfMemory => Err(Fault::OutOfMemory),
            Err(_) => {
                self.counts.failures = self.counts.failures.saturating_add(1);
                Err(Fault::WriteFailed)
            }
        }
    }
}
