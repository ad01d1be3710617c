//! The lock of a file, which runs that edit it hold one after the other.

use crate::disk::links::{Target, target_of};
use crate::disk::opening::{OpenedFile, open_found};
use crate::disk::purpose::Purpose;
use crate::disk::state::leads_to;
use std::alloc::Global;
use std::fs::{File, TryLockError};
use std::io::{Eprint, ErrorKind};
use std::rt::{Env, Files};
use std::time::{Clock, Duration};
use std::{env, io, thread};

/// How many tries for a lock may fail, with a pause after each: those of a minute, where they take no time.
const MOST_TRIES: u32 = 12_000;

/// How many seconds a run waits for a lock by the clock.
const LONGEST_WAIT: u64 = 60;

/// After how many of them a run says for what it waits: about a second.
const SILENT_TRIES: u32 = 200;

/// The pause between two tries, in milliseconds.
const PAUSE: u64 = 5;

/// The system's number for "no locks available", of a file system that has none.
const NO_LOCKS: i32 = 37;

/// What the environment sets to 1 where edits are to go on without a lock.
const UNLOCKED: &str = "YQ_NO_LOCK";

/// The lock that a command asks for, of the file to which a name leads.
#[derive(Clone, Copy)]
pub struct LockRequest<'n> {
    pub name: &'n str,
    pub purpose: Purpose,
    /// Whether a run that waits for it for longer than a second says that on standard error.
    pub reports: bool,
}

/// Whether runs that write go on where a file system has no locks: the environment asks for it.
fn goes_unlocked<R: Env + Alloc<A = Global>>(rt: &R) -> bool {
    match env::var(rt, UNLOCKED) {
        Ok(word) => word.as_str() == "1",
        Err(_) => false,
    }
}

/// Whether the lock was had: one that other readers may hold too, to list what is recorded, and one for
/// this run alone, to edit. Where the file system has no locks, what only lists goes on without one, and
/// what writes where it is asked for; else that is an error.
pub fn is_locked<R: Env + Alloc<A = Global>>(
    rt: &R,
    file: &File,
    purpose: Purpose,
) -> io::Result<bool> {
    let locked = match purpose {
        Purpose::List => file.try_lock_shared(),
        _ => file.try_lock(),
    };
    match locked {
        Ok(()) => Ok(true),
        Err(TryLockError::WouldBlock) => Ok(false),
        Err(TryLockError::Error(e)) => {
            let has_none = e.kind() == ErrorKind::Unsupported || e.raw_os_error() == Some(NO_LOCKS);
            if has_none && (purpose == Purpose::List || goes_unlocked(rt)) {
                Ok(true)
            } else {
                Err(e)
            }
        }
    }
}

/// Waits for the lock of an open file until a minute has gone by since a time, and gives how many tries have
/// failed, with those before.
fn wait_for_lock<R: Clock + Eprint + Env + Alloc<A = Global>>(
    rt: &R,
    file: &File,
    request: &LockRequest<'_>,
    since: Duration,
    failed: u32,
) -> io::Result<u32> {
    'tries: for tried in failed..MOST_TRIES {
        if is_locked(rt, file, request.purpose)? {
            return Ok(tried);
        }
        if rt.monotonic()?.saturating_sub(since).as_secs() >= LONGEST_WAIT {
            break;
        }
        if request.reports && tried == SILENT_TRIES {
            let name = request.name;
            let _reported = eprintln!(rt; "yq: waiting for another run at {name:?}");
        }
        thread::sleep(rt, Duration::from_millis(PAUSE));
    }
    Err(io::Error::from(ErrorKind::WouldBlock))
}

/// Opens and locks the file to which a name leads, if any; where another run keeps the lock for too long,
/// that is an error. A command that may write opens the file for writing at once: some file systems
/// copy a file where it is opened so, or lend its lock for one run alone only then. Where the name leads
/// to another file once the file is open, or once the lock is had, since it was exchanged or a run that
/// held the lock put another one there, it begins again. The lock goes when the file is closed, also
/// when a run is killed.
pub fn locked_file<R: Files<File = File> + Clock + Eprint + Env + Alloc<A = Global>>(
    rt: &R,
    request: &LockRequest<'_>,
) -> io::Result<Option<OpenedFile>> {
    let name = request.name;
    let writes = request.purpose != Purpose::List;
    let since = rt.monotonic()?;
    let mut failed = 0;
    'tries: for _ in 0..MOST_TRIES {
        let Target { path, found, .. } = target_of(rt, name)?;
        let Some(found) = found else {
            return Ok(None);
        };
        let Some((file, is_writable)) = open_found(rt, name, &path, &found, writes)? else {
            continue;
        };
        failed = wait_for_lock(rt, &file, request, since, failed)?;
        if leads_to(rt, name, &file.metadata()?)? {
            return Ok(Some(OpenedFile {
                path,
                file,
                is_writable,
            }));
        }
    }
    Err(io::Error::from(ErrorKind::WouldBlock))
}
