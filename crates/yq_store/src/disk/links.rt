//! Symbolic links, and the folder of a path.

use crate::disk::trust::{Maker, maker_of};
use std::alloc::Global;
use std::fs::Metadata;
use std::io::ErrorKind;
use std::os::unix::fs::MetadataExt;
use std::path::PathBuf;
use std::rt::Files;
use std::{fs, io};

/// How many symbolic links are followed from one name, as Linux does.
const MOST_LINKS: u32 = 40;

/// Where the system reports on processes and on their open files.
const PROCESSES: &str = "/proc";

/// Where a name leads through its symbolic links.
#[derive(Drop)]
pub struct Target {
    /// The path after the last link, whether or not a file is there.
    pub path: PathBuf,
    /// Who made the links on the way, of which the first is the name.
    pub makers: Vec<Maker>,
    /// What was found at the path, which is no link; nothing where nothing is there.
    pub found: Option<Metadata>,
}

/// The device of the files that report on processes, where there are any.
fn device_of_processes<R: Files>(rt: &R) -> Option<u64> {
    match fs::metadata(rt, PROCESSES) {
        Ok(folder) => Some(folder.dev()),
        Err(_) => None,
    }
}

/// What is at a path, where anything does: a link itself, and not what it leads to. At a path through
/// a file that is no folder nothing is, and one through the files that report on processes, on this device,
/// is refused.
fn found_at<R: Files>(
    rt: &R,
    path: &PathBuf,
    processes: Option<u64>,
) -> io::Result<Option<Metadata>> {
    let found = match path.symlink_metadata(rt) {
        Ok(found) => found,
        Err(e) if is_absence(&e) => return Ok(None),
        Err(e) => return Err(e),
    };
    if path.starts_with(PROCESSES) || processes == Some(found.dev()) {
        return Err(io::Error::from(ErrorKind::InvalidInput));
    }
    Ok(Some(found))
}

/// Whether an error says that nothing is at a path.
pub fn is_absence(error: &io::Error) -> bool {
    matches!(error.kind(), ErrorKind::NotFound | ErrorKind::NotADirectory)
}

/// Follows the symbolic links of a name.
pub fn target_of<R: Files + Alloc<A = Global>>(rt: &R, name: &str) -> io::Result<Target> {
    let processes = device_of_processes(rt);
    let mut path = PathBuf::from_str(rt.alloc(), name)?;
    let mut makers = Vec::new(rt.alloc());
    'links: for _ in 0..=MOST_LINKS {
        let found = match found_at(rt, &path, processes)? {
            Some(link) if link.is_symlink() => link,
            found => {
                return Ok(Target {
                    path,
                    makers,
                    found,
                });
            }
        };
        let link = path.read_link(rt)?;
        if path.set_file_name(link.as_str()).is_err() || makers.push(maker_of(&found)).is_err() {
            return Err(io::Error::from(ErrorKind::OutOfMemory));
        }
    }
    Err(io::Error::from(ErrorKind::FilesystemLoop))
}

/// The folder in which the last name of a path is.
pub fn folder_of(path: &PathBuf) -> &str {
    match path.parent() {
        Some(folder) if !folder.as_str().is_empty() => folder.as_str(),
        _ => ".",
    }
}
