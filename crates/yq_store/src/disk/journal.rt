//! The journal of a file, which another user may have put where it is looked for.
ghost use Rattle.std.specs.Prelude.{◌≡◌, IfOk, IfSome};
ghost use Rattle.yq_store.specs.Belief as spec;
ghost use Rattle.yq_store.specs.Rights as rights;

use crate::disk::belief::{BelievedJournal, OpenJournal, is_trusted, unbelieved};
use crate::disk::found::FoundFile;
use crate::disk::journal_limit::most_read;
use crate::disk::links::{Target, folder_of, is_absence, target_of};
use crate::disk::opening::{OpenedFile, open_found};
use crate::disk::ownership::Rights;
use crate::disk::state::{FileState, leads_to};
use crate::disk::trust::{Maker, Trust, Writers};
use std::alloc::Global;
use std::fs::File;
use std::io::ErrorKind;
use std::rt::{Env, Files};
use std::{fs, io};

/// How often it is looked once more for a journal that was exchanged while it was looked at.
const MOST_LOOKS: u32 = 40;

/// The journal of a file, if there is one, unless someone may have written it who may not
/// write the file. That is looked at before it is opened, since a pipe in its place could wait for
/// another run, and once more of what was opened. One that is too large isn't read.
pub fn read_journal<R: Files<File = File> + Env + Alloc<A = Global>>(
    rt: &R,
    name: &str,
    trust: Trust,
    file: FileState,
    writes: bool,
) -> io::Result<Option<BelievedJournal>>
    ensures { IfOk result (λ read. IfSome read (spec.IsBelieved trust file)) }
{
    'looks: for _ in 0..MOST_LOOKS {
        let Target {
            path,
            makers,
            found,
        } = target_of(rt, name)?;
        let Some(found) = found else {
            match fs::metadata(rt, name) {
                Ok(_) => continue,
                Err(e) if is_absence(&e) => return Ok(None),
                Err(e) => return Err(e),
            }
        };
        if let Some(why) = unbelieved(&FoundFile::of(&found), &makers, trust, file) {
            return Err(io::Error::from(why));
        }
        if let Some((journal, _)) = open_found(rt, name, &path, &found, writes)? {
            let journal = OpenJournal::of(journal, makers)?;
            return Ok(Some(journal.read(rt.alloc(), trust, file, most_read(rt))?));
        }
    }
    Err(io::Error::from(ErrorKind::ResourceBusy))
}

/// The rights of the journal that is to be written in the place of an old one, if any, to which these
/// links lead. What is no regular file, a journal that isn't trusted, and a link to nothing are errors.
fn rights_of_written(
    old: Option<FoundFile>,
    links: &[Maker],
    trust: Trust,
    file: Writers,
    is_beside: bool,
) -> Result<Rights, ErrorKind>
    ensures { result ≡ rights.rights_of_written old links.now trust file is_beside }
{
    match old {
        Some(old) if !old.is_file => Err(ErrorKind::InvalidInput),
        Some(old) if is_trusted(&old, links, trust) => {
            Ok(Rights::of_old_journal(old.writers, file, is_beside))
        }
        Some(_) => Err(ErrorKind::PermissionDenied),
        None if links.is_empty() => Ok(Rights::of_new_journal(file, is_beside)),
        None => Err(ErrorKind::NotFound),
    }
}

/// The rights of the journal that is to be written at a target, next to its open file or elsewhere.
pub fn journal_rights<R: Files>(
    rt: &R,
    target: &Target,
    trust: Trust,
    file: &OpenedFile,
) -> io::Result<Rights>
    ensures { IfOk result (λ r.
        rights.AreOfWritten target.now.found target.now.makers.items trust r) }
{
    let folder = fs::metadata(rt, folder_of(&target.path))?;
    let is_beside = leads_to(rt, folder_of(&file.path), &folder)?;
    let of_file = Writers::of(&file.file.metadata()?);
    let old = match &target.found {
        Some(found) => Some(FoundFile::of(found)),
        None => None,
    };
    Ok(rights_of_written(old, &target.makers, trust, of_file, is_beside)?)
}
