//! Whether a file is still as it was read.

use crate::disk::links::is_absence;
use crate::disk::reading::read_text;
use crate::disk::state::FileState;
use std::alloc::Global;
use std::fs::{File, Metadata};
use std::io;
use std::io::Seek;
use std::path::PathBuf;
use std::rt::Files;
use std::time::{Clock, Duration};

/// Two changes of a file have one time where they are less than a tick of the system's clock apart: fewer
/// milliseconds than these.
const TICK: u64 = 20;

/// How many milliseconds more these are where a file system keeps whole seconds, or every other one.
const WHOLE_SECONDS: u64 = 2_000;

/// How many milliseconds a file is empty at most that another program empties and then writes.
const SAVING: u64 = 50;

/// A file as it was read.
#[derive(Drop)]
pub struct FileAsRead {
    pub state: FileState,
    /// Its text, where a change after the reading could have left the state as it is.
    text: Option<Vec<u8>>,
}

/// Whether a file was changed last less than so many milliseconds ago, or later than the clock says. Where its
/// time has no part of a second, that may be up to two seconds before the change.
fn is_younger<R: Clock>(rt: &R, found: &Metadata, most: u64) -> io::Result<bool> {
    let time = FileState::of(found).time();
    let more = if time.subsec_nanos() == 0 {
        WHOLE_SECONDS
    } else {
        0
    };
    let age = rt.since_1970()?.saturating_sub(time);
    Ok(age.as_millis() < most.saturating_add(more) as u128)
}

/// What the system reports of an open file that is to be read. An empty one that was changed just now may be
/// about to be written by another program, which is waited for.
pub fn found_before_reading<R: Clock>(rt: &R, file: &File) -> io::Result<Metadata> {
    let found = file.metadata()?;
    if found.len() > 0 || !is_younger(rt, &found, SAVING)? {
        return Ok(found);
    }
    rt.sleep(Duration::from_millis(SAVING));
    file.metadata()
}

impl FileAsRead {
    /// Reads an open file of which the system reports this.
    pub fn read<R: Clock>(
        rt: &R,
        alloc: Global,
        file: &File,
        found: &Metadata,
    ) -> io::Result<(FileAsRead, Vec<u8>)> {
        let is_recent = is_younger(rt, found, TICK)?;
        let bytes = read_text(alloc, file)?;
        let text = if is_recent {
            Some(bytes.as_slice().to_vec(alloc)?)
        } else {
            None
        };
        let state = FileState::of(found);
        Ok((FileAsRead { state, text }, bytes))
    }

    /// Whether the file, which is open still, is at a path, and as it was read.
    pub fn is_at<R: Files>(
        &self,
        rt: &R,
        alloc: Global,
        path: &PathBuf,
        mut file: &File,
    ) -> io::Result<bool> {
        match path.symlink_metadata(rt) {
            Ok(found) if FileState::of(&found) == self.state => (),
            Ok(_) => return Ok(false),
            Err(e) if is_absence(&e) => return Ok(false),
            Err(e) => return Err(e),
        }
        let Some(text) = &self.text else {
            return Ok(true);
        };
        file.rewind()?;
        Ok(read_text(alloc, file)?.as_slice() == text.as_slice())
    }
}
