//! The file of a command that looks at a journal, from its reading to the last write.

use crate::disk::as_read::{FileAsRead, found_before_reading};
use crate::disk::journal::journal_rights;
use crate::disk::journal_limit::most_written;
use crate::disk::links::{Target, target_of};
use crate::disk::locking::{LockRequest, locked_file};
use crate::disk::old_journal::{OldJournal, put_back};
use crate::disk::opening::OpenedFile;
use crate::disk::ownership::Rights;
use crate::disk::protection::{check_replaceable, check_target};
use crate::disk::purpose::Purpose;
use crate::disk::reading::MOST_OF_TEXT;
use crate::disk::replacing::replace_file;
use crate::disk::state::FileState;
use crate::disk::temporary::remove_left;
use crate::disk::trust::{Trust, Writers, user_of_run};
use std::alloc::Global;
use std::fs::File;
use std::io::{Eprint, ErrorKind};
use std::random::RandomSource;
use std::rt::{Env, Files};
use std::time::Clock;
use std::{fs, io};

/// A file that is locked, as it was when it was read.
#[derive(Drop)]
pub struct EditedFile {
    opened: OpenedFile,
    pub as_read: FileAsRead,
    pub trust: Trust,
    /// What the command does with it.
    purpose: Purpose,
    /// Whether it was looked, before the first write, that the command may write.
    is_checked: bool,
    /// The journal that the first write replaced or made, where it wrote one.
    old_journal: Option<OldJournal>,
}

/// Locks the file to which a name leads, if any, and reads it; the one that was locked before is closed first.
pub fn read_edited<R: Files<File = File> + Clock + Eprint + Env + Alloc<A = Global>>(
    rt: &R,
    edited: &mut Option<EditedFile>,
    request: &LockRequest<'_>,
) -> io::Result<Option<Vec<u8>>> {
    *edited = None;
    let Some(opened) = locked_file(rt, request)? else {
        return Ok(None);
    };
    let found = found_before_reading(rt, &opened.file)?;
    if request.purpose == Purpose::Replay && found.len() >= MOST_OF_TEXT {
        return Err(io::Error::from(ErrorKind::FileTooLarge));
    }
    let (as_read, text) = FileAsRead::read(rt, rt.alloc(), &opened.file, &found)?;
    *edited = Some(EditedFile {
        opened,
        as_read,
        trust: Trust::of_user(user_of_run(rt), Writers::of(&found)),
        purpose: request.purpose,
        is_checked: false,
        old_journal: None,
    });
    Ok(Some(text))
}

/// Before the first write: that the file and, where that write is of its journal, what was found there may
/// both be replaced, and that the name still leads to the file as it was read. Then what cut runs left
/// next to these goes. Gives what was found of the journal, open.
fn check_first<R: Files<File = File> + Clock + Alloc<A = Global>>(
    rt: &R,
    edited: &EditedFile,
    name: &str,
    journal: Option<&Target>,
) -> io::Result<Option<File>> {
    let opened = &edited.opened;
    check_replaceable(
        rt,
        &opened.path,
        &opened.file,
        opened.is_writable,
        edited.trust,
    )?;
    let old = match journal {
        Some(target) => check_target(rt, target, edited.trust)?,
        None => None,
    };
    if FileState::of(&fs::metadata(rt, name)?) != edited.as_read.state {
        return Err(io::Error::from(ErrorKind::ResourceBusy));
    }
    remove_left(rt, &opened.path);
    if let Some(target) = journal {
        remove_left(rt, &target.path);
    }
    Ok(old)
}

/// Puts the journal back as it was before the first write, since the file isn't written for this reason.
fn give_up<R: Files<File = File> + RandomSource + Env + Alloc<A = Global>>(
    rt: &R,
    edited: &EditedFile,
    reason: ErrorKind,
) -> io::Result<()> {
    if let Some(old) = &edited.old_journal {
        put_back(rt, old, edited.trust, &edited.opened)?;
    }
    Err(io::Error::from(reason))
}

/// Replaces the file to which this name led, by one with the owner, the group and the mode of the open
/// one. Where another file is at its path by now, or it was changed since it was read, or it would be too
/// long for a text, nothing is written, and the journal is put back as it was before the first write.
/// Keeps the lock.
pub fn write_own<R: Files<File = File> + RandomSource + Clock + Env + Alloc<A = Global>>(
    rt: &R,
    edited: &mut EditedFile,
    name: &str,
    bytes: &[u8],
) -> io::Result<()> {
    if bytes.len() as u64 >= MOST_OF_TEXT {
        return give_up(rt, edited, ErrorKind::FileTooLarge);
    }
    if !edited.opened.path.symlink_metadata(rt)?.is_file() {
        return Err(io::Error::from(ErrorKind::InvalidInput));
    }
    if !edited.is_checked {
        let _ = check_first(rt, edited, name, None)?;
        edited.is_checked = true;
    }
    let OpenedFile { path, file, .. } = &edited.opened;
    let rights = Rights::of(Writers::of(&file.metadata()?));
    match replace_file(rt, path, bytes, rights, Some((&edited.as_read, file)))? {
        Some(file) => {
            edited.opened.file = file;
            Ok(())
        }
        None => give_up(rt, edited, ErrorKind::ResourceBusy),
    }
}

/// Replaces, or makes, the journal of the file with this name. The one with which an edit begins has a limit.
pub fn write_journal<R: Files<File = File> + RandomSource + Clock + Env + Alloc<A = Global>>(
    rt: &R,
    edited: &mut EditedFile,
    name: &str,
    journal: &str,
    bytes: &[u8],
) -> io::Result<()> {
    let target = target_of(rt, journal)?;
    let rights = journal_rights(rt, &target, edited.trust, &edited.opened)?;
    if !edited.is_checked {
        if bytes.len() as u64 > most_written(rt, edited.purpose) {
            return Err(io::Error::from(ErrorKind::FileTooLarge));
        }
        let old = check_first(rt, edited, name, Some(&target))?;
        edited.old_journal = Some(OldJournal::of(rt.alloc(), journal, old)?);
        edited.is_checked = true;
    }
    replace_file(rt, &target.path, bytes, rights, None).map(drop)
}
