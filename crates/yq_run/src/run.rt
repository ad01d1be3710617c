//! Lists of commands, carried out over a store.
ghost use Rattle.std.specs.Prelude.{◌≡◌, IfOk, OnErr, IsTrue, length};
ghost use Rattle.yq_commands.{specs.Calls.CallsOfAll, specs.Lists.{failures_in, output_failures_in}};
ghost use Rattle.yq_commands.specs.ListRuns.{CountsAnswers, RunsList, RunsByCause, UnnamedStay};

use crate::executing::execute;
use std::alloc::{AllocError, Global};
use yq_args::Command;
use yq_commands::{Answer, Out, answer_of};
use yq_history::Report;
use yq_store::Store;

/// Carries out commands in order, and gives an answer to each. A refused command changes no file,
/// unless what it changed is what can't be printed; it prints nothing, and doesn't end the list. An error means that none was carried out.
pub fn run_list<D: Store, W: Out>(
    alloc: Global,
    store: &mut D,
    out: &mut W,
    commands: &[Command],
) -> Result<Vec<Answer>, AllocError>
    // The file always holds the text at the cursor of its history, to which the answers lead. An
    // accepted edit gave the defined text, and a refused command changed nothing.
    ensures run { RunsList D.Store W.Out store.old store.new out.old out.new commands.now result }
    // Where no call failed and memory was there, a command is refused exactly for its cause.
    ensures exact { RunsByCause D.Store W.Out store.old store.new out.old out.new commands.now result }
    ensures others { IsTrue D.keeps → UnnamedStay commands.now D.content store.old store.new }
    ensures count { CountsAnswers failures_in D.failures store.old store.new result }
    ensures out_count { CountsAnswers output_failures_in W.failures out.old out.new result }
    ensures calls { IfOk result (λ v.
        CallsOfAll D.leads commands.now v.items store.old store.new) }
    ensures one_each { IfOk result (λ answers. length answers.items ≡ length commands.now) }
    ensures err { OnErr result ((store.new ≡ store.old) × (out.new ≡ out.old)) }
{
    let mut answers = Vec::with_capacity(alloc, commands.len())?;
    'commands: for command in commands {
        let mut report = Report::nothing(alloc);
        let done = execute(alloc, store, command, &mut report);
        let answer = answer_of(out, done, &report);
        answers.push(answer).unwrap();
    }
    Ok(answers)
}
