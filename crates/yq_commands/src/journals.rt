//! The journal of a command whose words name none: next to its file, or in the folder that the environment names.

use crate::words::words_fault;
use std::env::VarError;
use std::io::ErrorKind;
use std::{env, fs};
use yq_args::{Command, UsageCause, journal_in_folder, names_journal};
use yq_fault::Fault;

/// What the environment sets to the folder of journals.
const JOURNALS: &str = "YQ_JOURNALS";

/// The folder of journals as the environment names it, if it does; empty where it isn't UTF-8.
fn folder_of_journals(rt: &HostRuntime) -> Result<Option<String>, Fault> {
    match env::var(rt, JOURNALS) {
        Ok(folder) if folder.is_empty() => Ok(None),
        Ok(folder) => Ok(Some(folder)),
        Err(VarError::NotPresent) => Ok(None),
        Err(VarError::NotUnicode) => Ok(Some(String::new(rt.alloc()))),
        Err(VarError::OutOfMemory) => Err(Fault::OutOfMemory),
    }
}

/// Whether anything may be at a path: the system doesn't say that nothing is.
fn may_be_there(rt: &HostRuntime, path: &str) -> bool {
    match fs::symlink_metadata(rt, path) {
        Ok(_) => true,
        Err(e) => !matches!(
            e.kind(),
            ErrorKind::NotFound | ErrorKind::NotADirectory | ErrorKind::InvalidFilename
        ),
    }
}

/// The journal of a file in the folder of journals: its name is made of the path to which all links of
/// the file's name lead. None where nothing is there; a path that the system doesn't report is refused.
fn journal_of(rt: &HostRuntime, folder: &str, file: &str) -> Result<Option<String>, Fault> {
    match fs::canonicalize(rt, file) {
        Ok(path) => match journal_in_folder(rt.alloc(), folder, path.as_str()) {
            Ok(journal) => Ok(Some(journal)),
            Err(error) => Err(words_fault(error)),
        },
        Err(e) => match e.kind() {
            ErrorKind::NotFound | ErrorKind::NotADirectory => Ok(None),
            ErrorKind::OutOfMemory => Err(Fault::OutOfMemory),
            _ => Err(Fault::Usage(UsageCause::FilePath)),
        },
    }
}

/// The file and the journal of a command that looks at a journal.
fn names_of(command: &Command) -> Option<(&str, &str)> {
    match command {
        Command::Eval {
            in_place: false,
            ..
        }
        | Command::Help => None,
        Command::Eval { words, .. } => Some((words.file.as_str(), words.journal.as_str())),
        Command::Undo { file, journal }
        | Command::Redo { file, journal }
        | Command::History { file, journal, .. }
        | Command::Squash { file, journal, .. } => Some((file.as_str(), journal.as_str())),
    }
}

/// The journal of a command in this folder of journals, where its words name none and none is next to
/// its file.
fn journal_elsewhere(
    rt: &HostRuntime,
    folder: &str,
    words: &[&str],
    command: &Command,
) -> Result<Option<String>, Fault> {
    let Some((file, beside)) = names_of(command) else {
        return Ok(None);
    };
    let is_named = names_journal(rt.alloc(), words).map_err(words_fault)?;
    if is_named || may_be_there(rt, beside) {
        return Ok(None);
    }
    if !folder.starts_with('/') {
        return Err(Fault::Usage(UsageCause::JournalFolder));
    }
    journal_of(rt, folder, file)
}

/// A command, with its journal in the folder of journals where the environment names one, its words name no
/// journal, and none is next to its file. Gives that folder with it then.
pub fn with_own_journal(
    rt: &HostRuntime,
    words: &[&str],
    command: Command,
) -> Result<(Command, Option<String>), Fault> {
    let Some(folder) = folder_of_journals(rt)? else {
        return Ok((command, None));
    };
    match journal_elsewhere(rt, &folder, words, &command)? {
        None => Ok((command, None)),
        Some(journal) => match command.with_journal(journal) {
            Ok(command) => Ok((command, Some(folder))),
            Err(cause) => Err(Fault::Usage(cause)),
        },
    }
}
