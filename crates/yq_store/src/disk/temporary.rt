//! Temporary files next to the files that they are to replace, and those that cut runs left there.

use crate::disk::links::folder_of;
use crate::disk::locking::is_locked;
use crate::disk::opening::OpenedFile;
use crate::disk::purpose::Purpose;
use crate::disk::state::FileState;
use std::alloc::{AllocError, Global};
use std::fs::{DirEntry, File, Metadata, OpenOptions, TryLockError};
use std::io::ErrorKind;
use std::os::unix::fs::{MetadataExt, OpenOptionsExt};
use std::path::PathBuf;
use std::random::RandomSource;
use std::rt::{Env, Files};
use std::time::Clock;
use std::{fs, io};

/// How many names are tried for a temporary file.
const MOST_NAMES: u32 = 64;

/// The mode with which a temporary file is made: its owner alone may read and write it.
const PRIVATE: u32 = 0o600;

/// How many hexadecimal digits end the name of a temporary file.
const DIGITS: usize = 16;

/// How many bytes of a file's name are in that of its temporary files: with the rest they are 255,
/// the most that a name may have.
const MOST_OF_NAME: usize = 234;

/// How many seconds old a temporary file is when no run is at work on it any more, where no lock says so.
const AGE: u64 = 3_600;

/// What the names of a path's temporary files have of its last name.
fn name_within(path: &PathBuf) -> &str {
    let name = path.file_name().unwrap_or("");
    name.get(..name.floor_char_boundary(MOST_OF_NAME))
        .unwrap_or("")
}

/// A path for a temporary file next to a path: `.NAME.yq-` for its last name, and then the digits.
fn temporary_path(alloc: Global, path: &PathBuf, number: u64) -> Result<PathBuf, AllocError> {
    let name = name_within(path);
    let name = format!(in alloc; ".{name}.yq-{number:016x}")?;
    path.with_file_name(alloc, name.as_str())
}

/// Locks a new temporary file, and gives whether it is this run's. It isn't where another run took it for
/// one that a cut run left, and removes it or has removed it.
fn is_taken<R: Env + Alloc<A = Global>>(rt: &R, file: &File) -> io::Result<bool> {
    Ok(is_locked(rt, file, Purpose::Edit)? && file.metadata()?.nlink() > 0)
}

/// Makes a temporary file at a path, where none is there; nothing where one is, or another run took it.
fn new_at<R: Files<File = File> + Env + Alloc<A = Global>>(
    rt: &R,
    path: &PathBuf,
) -> io::Result<Option<File>> {
    let mut options = OpenOptions::new();
    options.write(true).create_new(true).mode(PRIVATE);
    let file = match options.open(rt, path.as_str()) {
        Ok(file) => file,
        Err(e) if e.kind() == ErrorKind::AlreadyExists => return Ok(None),
        Err(e) => return Err(e),
    };
    match is_taken(rt, &file) {
        Ok(is_own) => Ok(is_own.then_some(file)),
        Err(e) => {
            let _ = fs::remove_file(rt, path.as_str());
            Err(e)
        }
    }
}

/// Makes a temporary file next to a path, under a name that no file has: neither what an earlier run
/// left there when it was cut nor what another run writes at the same time is touched. It is locked, so
/// that no other run takes it for what was left.
pub fn make_temporary<R: Files<File = File> + RandomSource + Env + Alloc<A = Global>>(
    rt: &R,
    path: &PathBuf,
) -> io::Result<OpenedFile> {
    let mut random = [0u8; 8];
    'names: for _ in 0..MOST_NAMES {
        rt.fill_bytes(&mut random)?;
        let path = temporary_path(rt.alloc(), path, u64::from_le_bytes(random))?;
        if let Some(file) = new_at(rt, &path)? {
            return Ok(OpenedFile {
                path,
                file,
                is_writable: true,
            });
        }
    }
    Err(io::Error::from(ErrorKind::AlreadyExists))
}

/// Whether a text is the digits that end the name of a temporary file.
fn are_digits(text: &str) -> bool {
    'digits: for byte in text.as_bytes() {
        if !matches!(byte, b'0'..=b'9' | b'a'..=b'f') {
            return false;
        }
    }
    text.len() == DIGITS
}

/// Whether an entry of a folder has the name of a temporary file for this name.
fn is_temporary(entry: &str, name: &str) -> bool {
    match entry.rsplit_once(".yq-") {
        Some((front, digits)) => front.strip_prefix(".") == Some(name) && are_digits(digits),
        None => false,
    }
}

/// Opens the file that was found at a path, where the user may write it; opened so, a pipe in its place
/// doesn't wait for another run.
fn opened_at<R: Files<File = File>>(
    rt: &R,
    path: &str,
    found: &Metadata,
) -> io::Result<Option<File>> {
    let file = OpenOptions::new().read(true).write(true).open(rt, path)?;
    let is_found = FileState::of(found).is_of(&file.metadata()?);
    Ok(is_found.then_some(file))
}

/// Whether no run is at work on a temporary file that was found at a path: its lock can be had. Nothing
/// where that isn't reported, since it can't be opened or its file system has no locks. The file, which is
/// locked then, has to be removed before it is closed.
fn abandoned_at<R: Files<File = File>>(
    rt: &R,
    path: &str,
    found: &Metadata,
) -> Option<(bool, File)> {
    let Ok(Some(file)) = opened_at(rt, path, found) else {
        return None;
    };
    match file.try_lock() {
        Ok(()) => Some((true, file)),
        Err(TryLockError::WouldBlock) => Some((false, file)),
        Err(TryLockError::Error(_)) => None,
    }
}

/// Removes an entry of a folder where it is a temporary file for this name, and a regular file on which no
/// run is at work: its lock says so or, where no lock does, how long ago it was written.
fn remove_abandoned<R: Files<File = File>>(rt: &R, entry: &DirEntry<&R>, name: &str, now: u64) {
    if !is_temporary(entry.file_name(), name) {
        return;
    }
    let Ok(found) = entry.metadata() else {
        return;
    };
    if !found.is_file() {
        return;
    }
    let written = u64::try_from(found.mtime()).unwrap_or(0);
    let path = entry.path();
    let abandoned = abandoned_at(rt, path.as_str(), &found);
    let is_abandoned = match &abandoned {
        Some((is_abandoned, _)) => *is_abandoned,
        None => now.saturating_sub(written) > AGE,
    };
    if is_abandoned {
        let _ = fs::remove_file(rt, path);
    }
}

/// Removes the temporary files that runs left next to a path when they were cut. Only a run that
/// holds the lock of its file calls it. What can't be removed stays.
pub fn remove_left<R: Files<File = File> + Clock + Alloc<A = Global>>(rt: &R, path: &PathBuf) {
    let Ok(now) = rt.since_1970() else {
        return;
    };
    let Ok(entries) = fs::read_dir(&rt, folder_of(path)) else {
        return;
    };
    'entries: for entry in entries {
        if let Ok(entry) = entry {
            remove_abandoned(rt, &entry, name_within(path), now.as_secs());
        }
    }
}
