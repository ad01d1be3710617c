//! Reading files, as far as a text may be long.

use std::alloc::Global;
use std::fs::File;
use std::io;
use std::io::{ErrorKind, Read};
use yq_text::TEXT_LIMIT;

/// How many bytes are read of a text: one more than it may have.
pub const MOST_OF_TEXT: u64 = TEXT_LIMIT as u64 + 1;

/// Reads an open file to its end.
pub fn read_whole<F: Read + Drop>(alloc: Global, mut file: F) -> io::Result<Vec<u8>> {
    let mut bytes = Vec::new(alloc);
    file.read_to_end(&mut bytes)?;
    Ok(bytes)
}

/// Reads an open file to its end, unless it has more bytes than these: that is looked at first, since a file
/// may be large that takes no room on the disk, and once more, since it may grow.
pub fn read_within(alloc: Global, file: File, most: u64) -> io::Result<Vec<u8>> {
    if file.metadata()?.len() > most {
        return Err(io::Error::from(ErrorKind::FileTooLarge));
    }
    let bytes = read_whole(alloc, file.take(most.saturating_add(1)))?;
    if bytes.len() as u64 > most {
        return Err(io::Error::from(ErrorKind::FileTooLarge));
    }
    Ok(bytes)
}

/// Reads an open file to its end or, of one that is too long for a text, as much as shows this: more
/// bytes than a text may have, without the last character where that isn't whole.
pub fn read_text<F: Read + Drop>(alloc: Global, file: F) -> io::Result<Vec<u8>> {
    let most = MOST_OF_TEXT + 3;
    let mut bytes = read_whole(alloc, file.take(most))?;
    if bytes.len() as u64 == most {
        if let Err(error) = std::str::from_utf8(&bytes) {
            if error.error_len().is_none() {
                bytes.truncate(error.valid_up_to());
            }
        }
    }
    Ok(bytes)
}
