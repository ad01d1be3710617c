//! The answer to a command, by how it ended.
ghost use Rattle.std.specs.Prelude.{◌≡◌};
ghost use Rattle.yq_commands.specs.Lists.{CountsOutput, IsAnswer, PutsReport};
ghost use Rattle.yq_history.specs.Report.{report_by};
ghost use Rattle.yq_commands.specs.Lists as spec;

use crate::{Answer, Out};
use yq_fault::Fault;
use yq_history::Report;

/// The answer to a command that was carried out.
fn answer_by(is_match: bool) -> Answer
    ensures { result ≡ spec.answer_by is_match }
{
    if is_match {
        Answer::Done
    } else {
        Answer::NoMatch
    }
}

/// The answer to a command that ended so: where it was carried out, what it prints is put.
pub fn answer_of<W: Out>(out: &mut W, done: Result<(), Fault>, report: &Report) -> Answer
    ensures answered { IsAnswer done result (report_by report.now) }
    ensures taken { PutsReport W.observable W.taken out.old out.new done result
        (report_by report.now) }
    ensures count { CountsOutput W.failures out.old out.new done result }
{
    if let Err(fault) = done {
        return Answer::Refused(fault);
    }
    let printed = report.text.as_bytes();
    if printed.is_empty() {
        return answer_by(report.is_match);
    }
    match out.put(printed) {
        Ok(()) => answer_by(report.is_match),
        Err(_) => Answer::Refused(Fault::OutFailed),
    }
}
