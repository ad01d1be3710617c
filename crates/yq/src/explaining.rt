//! Why a command is refused and where, in lines for a person.

use std::fs::metadata;
use std::io::IsTerminal;
use std::path::Path;
use std::{fs, io};
use yq_args::{Command, asked_code, asks_lines};
use yq_explain::{code_of, expression_lines, place_lines, push_name, push_rows};
use yq_fault::Fault;
use yq_run::{Out, as_slices, asked_command, own_words, purpose_of};

/// The most bytes of a file that are read once more to show a line of it.
const MOST: u64 = 1 << 25;

/// The bytes of a file that can be read once more, as those of a pipe can't.
fn bytes_of(rt: &HostRuntime, file: &str) -> Option<Vec<u8>> {
    match metadata(rt, Path::new(file)) {
        Ok(found) if found.is_file() && found.len() <= MOST => fs::read(rt, file).ok(),
        _ => None,
    }
}

/// The lines about a command that is refused for this fault, whose code it is.
fn lines_of(
    rt: &HostRuntime,
    command: &Command,
    fault: Option<&Fault>,
    code: &str,
) -> Result<String, Fault> {
    let (file, _) = purpose_of(command);
    let mut text = match (fault, command) {
        (Some(Fault::Expression(place)), Command::Eval { words, .. }) => {
            let expr = words.expr.as_str();
            return Ok(expression_lines(rt.alloc(), expr, *place, code)?);
        }
        (Some(Fault::Unreadable(place)), _) => {
            let bytes = bytes_of(rt, file);
            place_lines(rt.alloc(), file, bytes.as_deref(), *place)?
        }
        _ => {
            let mut text = String::from_str(rt.alloc(), "FILE: ")?;
            push_name(&mut text, file)?;
            text.push('\n')?;
            text
        }
    };
    if let Some(Fault::Refused(refused)) = fault {
        text.push_str(refused.line.as_deref().unwrap_or(""))?;
    }
    push_rows(&mut text, code, false)?;
    Ok(text)
}

/// The lines about a fault of the program's own command; without one nothing was matched.
fn cause_lines(rt: &HostRuntime, fault: Option<&Fault>) -> Result<String, Fault> {
    let (command, _) = asked_command(rt)?;
    let code = match fault {
        Some(fault) => code_of(rt.alloc(), fault)?,
        None => String::from_str(rt.alloc(), "N1")?,
    };
    lines_of(rt, &command, fault, code.as_str())
}

/// Whether such lines are asked for: by an option, or by a terminal.
fn is_asked(rt: &HostRuntime) -> Result<bool, Fault> {
    if rt.stderr().is_terminal() {
        return Ok(true);
    }
    let owned = own_words(rt)?;
    Ok(asks_lines(&as_slices(rt, &owned)?))
}

/// Reports on standard error why a command is refused and where, if that is asked for; without a fault
/// nothing was matched.
pub fn report_cause(rt: &HostRuntime, fault: Option<&Fault>) -> io::Result<()> {
    if !is_asked(rt).unwrap_or(false) {
        return Ok(());
    }
    match cause_lines(rt, fault) {
        Ok(lines) => eprint!(rt; "{lines}"),
        Err(_) => Ok(()),
    }
}

/// Puts what a code means to an output, if the words ask for that alone; whether they do.
pub fn put_code<W: Out>(rt: &HostRuntime, out: &mut W) -> Result<bool, Fault> {
    let owned = own_words(rt)?;
    let words = as_slices(rt, &owned)?;
    let Some(code) = asked_code(&words) else {
        return Ok(false);
    };
    let mut text = String::new(rt.alloc());
    if !push_rows(&mut text, code, true)? {
        return Ok(false);
    }
    match out.put(text.as_bytes()) {
        Ok(()) => Ok(true),
        Err(_) => Err(Fault::OutFailed),
    }
}
