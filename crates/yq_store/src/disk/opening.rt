//! Opening the file that was found where a name leads, and no other.

use crate::disk::state::FileState;
use std::fs::{File, Metadata, OpenOptions};
use std::io::ErrorKind;
use std::path::PathBuf;
use std::rt::Files;
use std::{fs, io};

/// An open file, and the path at which it is.
#[derive(Drop)]
pub struct OpenedFile {
    pub path: PathBuf,
    pub file: File,
    /// Whether it is open for writing, too.
    pub is_writable: bool,
}

/// Whether an error says that a file may be read and not written.
fn is_protection(error: &io::Error) -> bool {
    matches!(
        error.kind(),
        ErrorKind::PermissionDenied | ErrorKind::ReadOnlyFilesystem | ErrorKind::ExecutableFileBusy
    )
}

/// Opens a path for reading, and where `writes` is set for writing in the same call; gives whether it is
/// open for writing. What the user may not write is opened for reading alone. A pipe that is opened for
/// both doesn't wait for another run at its other end.
fn open_path<R: Files>(rt: &R, path: &str, writes: bool) -> io::Result<(R::File, bool)> {
    if writes {
        match OpenOptions::new().read(true).write(true).open(rt, path) {
            Ok(file) => return Ok((file, true)),
            Err(e) if is_protection(&e) => (),
            Err(e) => return Err(e),
        }
    }
    Ok((fs::open(rt, path)?, false))
}

/// Opens the file that was found at the path to which a name leads, and gives whether it is open for
/// writing; nothing where another file was opened, since what is at the path was exchanged. What is
/// no regular file, such as a folder, a device or a pipe, isn't opened. The system is asked for the name
/// as it was given, too: it may refuse to follow a stranger's link.
pub fn open_found<R: Files<File = File>>(
    rt: &R,
    name: &str,
    path: &PathBuf,
    found: &Metadata,
    writes: bool,
) -> io::Result<Option<(File, bool)>> {
    if !found.is_file() || !fs::metadata(rt, name)?.is_file() {
        return Err(io::Error::from(ErrorKind::InvalidInput));
    }
    let (file, is_writable) = open_path(rt, path.as_str(), writes)?;
    let opened = file.metadata()?;
    if opened.is_file() && FileState::of(found).is_of(&opened) {
        Ok(Some((file, is_writable)))
    } else {
        Ok(None)
    }
}
