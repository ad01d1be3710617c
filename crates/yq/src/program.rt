//! The program's words, carried out over real files and standard output.

use crate::explaining::put_code;
use std::io::IsTerminal;
use std::slice;
use yq_args::Command;
use yq_fault::Fault;
use yq_run::{
    Answer, CountedOut, Hint, asked_command, has_colours, purpose_of, put_help, run_list,
};
use yq_store::{DiskStore, JournalHint, WithFolder};

/// What is reported next to the answer to a command: what its store reports, or how many records it listed.
fn hint_for(journal: Option<JournalHint>, command: &Command, listed: Option<u64>) -> Option<Hint> {
    if let Some(hint) = journal {
        return Some(Hint::Journal(hint));
    }
    match (command, listed) {
        (Command::History { diffs: false, .. }, Some(records)) => Hint::of_records(records),
        _ => None,
    }
}

/// The answer to a command on a file, whose output goes to `out`, and what is reported next to it. Its journal is in
/// this folder, where one is named.
fn answer_on_file(
    rt: &HostRuntime,
    out: &mut CountedOut<'_>,
    command: &Command,
    folder: Option<String>,
) -> Result<(Answer, Option<Hint>), Fault> {
    out.colour(has_colours(rt, command));
    let on_terminal = rt.stderr().is_terminal();
    out.count(on_terminal);
    let (file, purpose) = purpose_of(command);
    let files = DiskStore::new(rt, file, purpose).reporting(on_terminal);
    let mut store = WithFolder::new(rt, files, file, folder);
    let mut answers = run_list(rt.alloc(), &mut store, out, slice::from_ref(command))?;
    let listed = if on_terminal { Some(out.lines()) } else { None };
    let hint = hint_for(store.files().hint(), command, listed);
    match answers.pop() {
        Some(answer) => Ok((answer, hint)),
        None => Ok((Answer::Done, None)),
    }
}

/// The answer to a command whose output goes to `out`, and what is reported next to it.
fn answer_to(rt: &HostRuntime, out: &mut CountedOut<'_>) -> Result<(Answer, Option<Hint>), Fault> {
    if put_code(rt, out)? {
        return Ok((Answer::Done, None));
    }
    let (command, folder) = asked_command(rt)?;
    if let Command::Help = command {
        put_help(rt, out)?;
        return Ok((Answer::Done, None));
    }
    answer_on_file(rt, out, &command, folder)
}

/// The answer to the program's words, and what is reported next to it; none where the reader of standard output
/// has closed it.
pub fn answer_to_words(rt: &HostRuntime) -> Option<(Answer, Option<Hint>)> {
    let mut out = CountedOut::new(rt);
    match answer_to(rt, &mut out) {
        _ if out.is_closed() => None,
        Ok(answer) => Some(answer),
        Err(fault) => Some((Answer::Refused(fault), None)),
    }
}
