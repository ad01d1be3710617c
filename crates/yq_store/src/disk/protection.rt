//! What may not be replaced, found before anything is written.

use crate::disk::links::{Target, folder_of};
use crate::disk::opening::open_found;
use crate::disk::reading::read_whole;
use crate::disk::trust::{Trust, Writers};
use std::alloc::Global;
use std::fs::File;
use std::io::ErrorKind;
use std::os::fd::AsRawFd;
use std::os::unix::fs::MetadataExt;
use std::path::PathBuf;
use std::rt::Files;
use std::{fs, io};

/// What is written before the number of a mount in what the system reports of an open file.
const MOUNT: &str = "mnt_id:";

/// The number of a mount in what the system reports of an open file, where it is reported.
fn mount_in(info: Vec<u8>) -> Option<u64> {
    for line in std::str::from_utf8(&info).unwrap_or("").lines() {
        if let Some(number) = line.strip_prefix(MOUNT) {
            return number.trim().parse().ok();
        }
    }
    None
}

/// The number of the mount through which a file was opened, where the system reports it.
fn mount_of<R: Files<File = File> + Alloc<A = Global>>(
    rt: &R,
    file: &File,
) -> io::Result<Option<u64>> {
    let number = file.as_raw_fd();
    let info = format!(in rt.alloc(); "/proc/self/fdinfo/{number}")?;
    match fs::open(rt, info.as_str()) {
        Ok(info) => read_whole(rt.alloc(), info).map(mount_in),
        Err(_) => Ok(None),
    }
}

/// Fails where the open file at a path may not be replaced: the user may not write it, or no file can be
/// renamed over it, since its folder has the sticky bit, or it is mounted on its own. Nothing is changed.
pub fn check_replaceable<R: Files<File = File> + Alloc<A = Global>>(
    rt: &R,
    path: &PathBuf,
    file: &File,
    is_writable: bool,
    trust: Trust,
) -> io::Result<()> {
    let folder = fs::open(rt, folder_of(path))?;
    let owner = file.metadata()?.uid();
    if !is_writable || !trust.may_replace(Writers::of(&folder.metadata()?), owner) {
        return Err(io::Error::from(ErrorKind::PermissionDenied));
    }
    match (mount_of(rt, file)?, mount_of(rt, &folder)?) {
        (Some(own), Some(around)) if own != around => Err(io::Error::from(ErrorKind::ResourceBusy)),
        _ => Ok(()),
    }
}

/// Fails where the file that was found at a target, if any, may not be replaced, or was exchanged since; else
/// gives it, open at its first byte.
pub fn check_target<R: Files<File = File> + Alloc<A = Global>>(
    rt: &R,
    target: &Target,
    trust: Trust,
) -> io::Result<Option<File>> {
    let Some(found) = &target.found else {
        return Ok(None);
    };
    let path = &target.path;
    match open_found(rt, path.as_str(), path, found, true)? {
        Some((file, is_writable)) => {
            check_replaceable(rt, path, &file, is_writable, trust)?;
            Ok(Some(file))
        }
        None => Err(io::Error::from(ErrorKind::ResourceBusy)),
    }
}
