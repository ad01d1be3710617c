//! The program: commands over a store of files.
#![tactic(auto)]

mod explaining;
mod program;

use crate::explaining::report_cause;
use crate::program::answer_to_words;
use std::io;
use std::process::ExitCode;
use yq_fault::Fault;
use yq_run::{Answer, report_usage};

/// The status with which a shell shows what ended because the reader of its output closed the pipe.
const CLOSED: u8 = 141;

/// Reports an answer on standard error, and gives the status.
fn report_answer(rt: &HostRuntime, answer: Answer) -> io::Result<ExitCode> {
    match answer {
        Answer::Done => return Ok(ExitCode::SUCCESS),
        Answer::NoMatch => {
            eprintln!(rt; "Error: N1 no matches found")?;
            report_cause(rt, None)?
        }
        Answer::Refused(fault) => {
            eprintln!(rt; "Error: {fault}")?;
            match &fault {
                Fault::Usage(cause) => report_usage(rt, *cause)?,
                fault => report_cause(rt, Some(fault))?,
            }
        }
    }
    Ok(ExitCode::from(1))
}

fn main(rt: HostRuntime) -> io::Result<ExitCode> {
    let Some((answer, hint)) = answer_to_words(&rt) else {
        return Ok(ExitCode::from(CLOSED));
    };
    let status = report_answer(&rt, answer)?;
    if let Some(hint) = hint {
        eprintln!(rt; "yq: {hint}")?;
    }
    Ok(status)
}
