//! The owner, the group and the mode, which a new file takes over from another one.
ghost use Rattle.std.specs.Prelude.{◌≡◌, bit_and};
ghost use Rattle.yq_store.specs.Rights as spec;

use crate::disk::trust::Writers;
use std::fs::{OpenFile, Permissions};
use std::io;
use std::io::ErrorKind;
use std::os::fd::AsFd;
use std::os::unix::fs::{MetadataExt, PermissionsExt, fchown};

/// The bits that say who may read, write and run a file.
const READ_WRITE_RUN: u32 = 0o777;

/// These bits, and those that change the user or group of a run.
const ALL_BITS: u32 = 0o7777;

/// The bits of the owner and of everyone.
const BITS_OF_OTHERS: u32 = 0o707;

/// The mode of a file that could not keep its group: the new group may do what both the old group
/// and everyone could.
fn mode_in_another_group(mode: u32) -> u32
    ensures exact { result ≡ spec.mode_in_another_group mode }
    ensures within { bit_and result mode ≡ result }
{
    mode & READ_WRITE_RUN & (BITS_OF_OTHERS | (mode & 0o007) << 3)
}

/// The mode of a journal, less what the mode of its file lacks, and without the bits that change the user
/// or group of a run.
fn mode_within(mode: u32, of_file: u32) -> u32
    ensures exact { result ≡ spec.mode_within mode of_file }
    ensures within { bit_and result of_file ≡ result }
{
    mode & READ_WRITE_RUN & of_file
}

/// Whether the system carried out a change of owner. Where it doesn't give files away, it says so;
/// any other error is a failure.
fn is_allowed(changed: io::Result<()>) -> io::Result<bool> {
    match changed {
        Ok(()) => Ok(true),
        Err(e) => match e.kind() {
            ErrorKind::PermissionDenied | ErrorKind::InvalidInput | ErrorKind::Unsupported => {
                Ok(false)
            }
            _ => Err(e),
        },
    }
}

/// Who a file is to belong to, and who may do what with it.
#[derive(Clone, Copy)]
pub struct Rights {
    /// The owner; nothing where owner and group are to be its maker's.
    owner: Option<u32>,
    /// The group of which the mode speaks.
    group: u32,
    mode: u32,
}

impl Rights {
    /// Those of a file, for the one that replaces it.
    pub fn of(file: Writers) -> Rights
        ensures { result ≡ spec.rights_of_file file }
    {
        Rights {
            owner: Some(file.owner),
            group: file.group,
            mode: file.mode & ALL_BITS,
        }
    }

    /// Those of a new journal. In the folder of its file, who may do what with the one may do so with the
    /// other; in another folder it isn't given away.
    pub fn of_new_journal(file: Writers, is_beside: bool) -> Rights
        ensures { result ≡ spec.rights_of_new_journal file is_beside }
    {
        Rights {
            owner: if is_beside { Some(file.owner) } else { None },
            group: file.group,
            mode: file.mode & READ_WRITE_RUN,
        }
    }

    /// Those of a journal, for the one that replaces it: nobody gains what the mode of its file lacks. In
    /// the folder of its file its group is that of the file; in another folder another group keeps what
    /// everyone may do.
    pub fn of_old_journal(journal: Writers, file: Writers, is_beside: bool) -> Rights
        ensures exact { result ≡ spec.rights_of_old_journal journal file is_beside }
        ensures within { bit_and result.mode file.mode ≡ result.mode }
    {
        let mode = mode_within(journal.mode, file.mode);
        if is_beside || journal.group == file.group {
            Rights {
                owner: Some(journal.owner),
                group: file.group,
                mode,
            }
        } else {
            Rights {
                owner: Some(journal.owner),
                group: journal.group,
                mode: mode_in_another_group(mode),
            }
        }
    }
}

/// What the system let a new file have of the owner and the group that it is to have.
#[derive(Clone, Copy)]
enum Had {
    All,
    Group,
    Nothing,
}

/// The mode of a new file that has this of its owner and its group.
fn mode_where(had: Had, mode: u32) -> u32
    ensures exact { result ≡ spec.mode_where had mode }
    ensures within { bit_and result mode ≡ result }
{
    match had {
        Had::All => mode,
        Had::Group => mode & READ_WRITE_RUN,
        Had::Nothing => mode_in_another_group(mode),
    }
}

/// Gives a new file an owner and a group, as far as the system allows that; nothing is asked for where they
/// are to be its maker's.
fn give<F: OpenFile + AsFd>(new: &F, owner: Option<u32>, group: u32) -> io::Result<Had> {
    let Some(owner) = owner else {
        let is_there = new.metadata()?.gid() == group;
        return Ok(if is_there { Had::All } else { Had::Nothing });
    };
    if is_allowed(fchown(new, Some(owner), Some(group)))? {
        return Ok(Had::All);
    }
    let has_group = is_allowed(fchown(new, None, Some(group)))?;
    Ok(if has_group { Had::Group } else { Had::Nothing })
}

/// Gives a new file an owner, a group and a mode, in this order, since a change of owner takes bits
/// from the mode. Where the system doesn't allow the owner or the group, the new file keeps its
/// maker's, and loses the bits that would then say too much.
pub fn take_over<F: OpenFile + AsFd>(new: &F, rights: Rights) -> io::Result<()> {
    let Rights { owner, group, mode } = rights;
    let had = give(new, owner, group)?;
    new.set_permissions(Permissions::from_mode(mode_where(had, mode)))
}
