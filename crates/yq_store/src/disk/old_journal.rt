//! The journal as it was before a run's first write, which is put back where its file isn't written.

use crate::disk::journal::journal_rights;
use crate::disk::links::{folder_of, target_of};
use crate::disk::opening::OpenedFile;
use crate::disk::reading::read_whole;
use crate::disk::replacing::{is_synced, replace_file};
use crate::disk::trust::Trust;
use std::alloc::{AllocError, Global};
use std::fs::File;
use std::path::PathBuf;
use std::random::RandomSource;
use std::rt::{Env, Files};
use std::{fs, io};

/// A journal that a first write replaced, or made.
#[derive(Drop)]
pub struct OldJournal {
    name: String,
    /// What it was, open at its first byte; nothing where none was there.
    file: Option<File>,
}

impl OldJournal {
    /// The journal of this name, and what was found of it.
    pub fn of(alloc: Global, name: &str, file: Option<File>) -> Result<OldJournal, AllocError> {
        let name = String::from_str(alloc, name)?;
        Ok(OldJournal { name, file })
    }
}

/// Removes the journal that a first write made.
fn remove_new<R: Files<File = File>>(rt: &R, path: &PathBuf) -> io::Result<()> {
    let folder = fs::open(rt, folder_of(path))?;
    fs::remove_file(rt, path.as_str())?;
    let _ = is_synced(&folder);
    Ok(())
}

/// Puts the journal of an open file back as it was before the first write of this run, which alone writes it.
pub fn put_back<R: Files<File = File> + RandomSource + Env + Alloc<A = Global>>(
    rt: &R,
    old: &OldJournal,
    trust: Trust,
    file: &OpenedFile,
) -> io::Result<()> {
    let target = target_of(rt, old.name.as_str())?;
    let rights = journal_rights(rt, &target, trust, file)?;
    match &old.file {
        None => remove_new(rt, &target.path),
        Some(old) => {
            let bytes = read_whole(rt.alloc(), old)?;
            replace_file(rt, &target.path, &bytes, rights, None).map(drop)
        }
    }
}
