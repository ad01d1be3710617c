//! The words with which the program was called, as the system has them.
ghost use Rattle.std.specs.Prelude.{◌≡◌, ◌⊎◌, IfErr, IsTrue, OnOk};
ghost use Rattle.yq_commands.specs.Help.{TookHelp};

use crate::Out;
use crate::help::{USAGE, help_text};
use crate::journals::with_own_journal;
use crate::words::command_of;
use std::alloc::AllocError;
use std::fs::metadata;
use std::io;
use std::io::ErrorKind;
use std::path::Path;
use yq_args::{Command, UsageCause, first_name, push_named, usage_text};
use yq_fault::Fault;

/// The program's words, less its own name.
pub fn own_words(rt: &HostRuntime) -> Result<Vec<String>, Fault> {
    match std::env::args(rt) {
        Ok(args) => Ok(args.skip(1).collect(rt.alloc())?),
        Err(e) if e.kind() == ErrorKind::OutOfMemory => Err(Fault::OutOfMemory),
        Err(_) => Err(Fault::Usage(UsageCause::NotText)),
    }
}

/// The name by which the program was called: what comes after the last slash of the word before its words.
fn own_name(rt: &HostRuntime) -> Result<String, AllocError> {
    let called = match std::env::args(rt) {
        Ok(args) => args.take(1).collect(rt.alloc())?,
        Err(_) => Vec::new(rt.alloc()),
    };
    let path = match called.first() {
        Some(word) => word.as_str(),
        None => "",
    };
    String::from_str(rt.alloc(), Path::new(path).file_name().unwrap_or("yq"))
}

/// The words as slices.
pub fn as_slices<'w>(rt: &HostRuntime, owned: &'w [String]) -> Result<Vec<&'w str>, AllocError> {
    let mut words = Vec::with_capacity(rt.alloc(), owned.len())?;
    for word in owned {
        words.push(word.as_str())?;
    }
    Ok(words)
}

/// The command that the words ask for, and the folder of its journal where the environment names that.
pub fn asked_command(rt: &HostRuntime) -> Result<(Command, Option<String>), Fault> {
    let owned = own_words(rt)?;
    let words = as_slices(rt, &owned)?;
    let command = command_of(rt.alloc(), &words)?;
    with_own_journal(rt, &words, command)
}

/// What is reported after the line of a refusal of the program's words: why, and the ways to call it.
fn usage_lines(rt: &HostRuntime, cause: UsageCause) -> Result<String, Fault> {
    let owned = own_words(rt).unwrap_or(Vec::new(rt.alloc()));
    let words = as_slices(rt, &owned)?;
    let is_file = match metadata(rt, Path::new(first_name(&words))) {
        Ok(found) => !found.is_dir(),
        Err(_) => false,
    };
    let name = own_name(rt)?;
    let mut text = usage_text(rt.alloc(), cause, &words, is_file, &name)?;
    push_named(&mut text, USAGE, &name)?;
    push_named(&mut text, "try '% --help'\n", &name)?;
    Ok(text)
}

/// Tells on standard error why the program's words are refused, and the ways to call it.
pub fn report_usage(rt: &HostRuntime, cause: UsageCause) -> io::Result<()> {
    match usage_lines(rt, cause) {
        Ok(lines) => eprint!(rt; "{lines}"),
        Err(_) => Ok(()),
    }
}

/// Puts the help to an output, by the name by which the program was called.
pub fn put_help<W: Out>(rt: &HostRuntime, out: &mut W) -> Result<(), Fault>
    ensures taken { IsTrue W.observable → OnOk result (TookHelp (W.taken out.old) (W.taken out.new)) }
    ensures err { IfErr result (λ e. (e ≡ Fault.OutOfMemory) ⊎ (e ≡ Fault.OutFailed)) }
{
    let text = help_text(rt.alloc(), &own_name(rt)?)?;
    match out.put(text.as_bytes()) {
        Ok(()) => Ok(()),
        Err(_) => Err(Fault::OutFailed),
    }
}
