//! Replacing a file: a temporary file next to it is written, synced, and renamed over it.

use crate::disk::as_read::FileAsRead;
use crate::disk::links::folder_of;
use crate::disk::opening::OpenedFile;
use crate::disk::ownership::{Rights, take_over};
use crate::disk::temporary::make_temporary;
use std::alloc::Global;
use std::fs::File;
use std::io::{ErrorKind, Write};
use std::path::PathBuf;
use std::random::RandomSource;
use std::rt::{Env, Files};
use std::{fs, io};

/// The file that is to be replaced, open still, and how it was read: another one isn't replaced.
pub type Replaced<'a> = Option<(&'a FileAsRead, &'a File)>;

/// Whether what is at a path may be replaced: the file is there as it was read, or none is asked for.
fn is_there<R: Files + Alloc<A = Global>>(
    rt: &R,
    path: &PathBuf,
    replaced: Replaced<'_>,
) -> io::Result<bool> {
    match replaced {
        Some((as_read, file)) => as_read.is_at(rt, rt.alloc(), path, file),
        None => Ok(true),
    }
}

/// Writes the bytes of a temporary file, and what it takes over, out to the disk.
fn fill(file: &mut File, bytes: &[u8], rights: Rights) -> io::Result<()> {
    file.write_all(bytes)?;
    take_over(file, rights)?;
    file.sync_all()
}

/// Renames a temporary file over a path; gives whether it did, since it doesn't where another file is there
/// than is to be replaced. Lack of memory is reported where that isn't known.
fn put_over<R: Files + Alloc<A = Global>>(
    rt: &R,
    temporary: &OpenedFile,
    path: &PathBuf,
    replaced: Replaced<'_>,
) -> io::Result<bool> {
    if !is_there(rt, path, replaced)? {
        return Ok(false);
    }
    match fs::rename(rt, temporary.path.as_str(), path.as_str()) {
        Ok(()) => Ok(true),
        Err(_) => Err(io::Error::from(ErrorKind::Other)),
    }
}

/// Writes the names of a folder out to the disk, where its file system can.
pub fn is_synced(folder: &File) -> bool {
    match folder.sync_all() {
        Ok(()) => true,
        Err(e) => e.kind() == ErrorKind::InvalidInput,
    }
}

/// Replaces the file at a path, or makes it, with these rights, and gives the new file. It was locked before
/// a name led to it, so a run goes on holding the lock of its file. Nothing is given, and nothing written,
/// where another file is there than is to be replaced. After a failure the path has its old bytes, but
/// for a failure to write the folder out to the disk, which comes last: then it has the new ones. Want of
/// memory is given as such only before the renaming.
pub fn replace_file<R: Files<File = File> + RandomSource + Env + Alloc<A = Global>>(
    rt: &R,
    path: &PathBuf,
    bytes: &[u8],
    rights: Rights,
    replaced: Replaced<'_>,
) -> io::Result<Option<File>> {
    let folder = fs::open(rt, folder_of(path))?;
    let mut temporary = make_temporary(rt, path)?;
    let finished = match fill(&mut temporary.file, bytes, rights) {
        Ok(()) => put_over(rt, &temporary, path, replaced),
        Err(_) => Err(io::Error::from(ErrorKind::Other)),
    };
    if !matches!(finished, Ok(true)) {
        let _ = fs::remove_file(rt, temporary.path.as_str());
    }
    match finished {
        Ok(true) if is_synced(&folder) => Ok(Some(temporary.file)),
        Ok(true) => Err(io::Error::from(ErrorKind::Other)),
        Ok(false) => Ok(None),
        Err(e) => Err(e),
    }
}
