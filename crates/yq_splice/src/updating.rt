//! Updates of a program carried out on a session, each as rows plan it.
ghost use Rattle.std.specs.Prelude.{◌≤◌, ◌<◌, IfOk};
ghost use Rattle.yq_documents.specs.Reading.{documents_of};
ghost use Rattle.yq_semantics.{specs.Program.{LiteralsHold, update_count}, specs.View.program_of};
ghost use Rattle.yq_expr.specs.FixedPaths.{IsSole, PlansAlone};
ghost use Rattle.yq_edit_laws.specs.Theorems.{HasReading};
ghost use Rattle.yq_splice.specs.Updates.{FailAfter, LeadOn};

use crate::session::Session;
use yq_expr::Program;
use yq_semantics::{ExprError, Op};
use yq_text::{Edited, Splice};

/// Update `nth` of a program and those after it, as far as rows plan them, carried out on a session; the
/// first one by its operation. Their splices come after others. With the new text comes how many updates
/// are done.
pub(crate) fn update_session(
    session: Session,
    splices: Vec<Splice>,
    program: &Program,
    nth: usize,
    first: Op,
) -> Result<(Edited, usize), ExprError>
    requires within { nth < update_count (program_of program.now) }
    requires literals { LiteralsHold (program_of program.now) }
    requires read { HasReading session.text }
    requires sole { IsSole (documents_of session.text) }
    requires plans { PlansAlone nth program.now session.text first }
    ensures ok { LeadOn (program_of program.now) nth session.text splices.items result }
    ensures more { IfOk result (λ x. (nth < x.1) × (x.1 ≤ update_count (program_of program.now))) }
    ensures err { FailAfter (program_of program.now) nth session.text splices.items result }
{
    let mut session = session;
    let mut splices = splices;
    let mut op = first;
    let mut done = nth;
    let _count = program.updates();
    'updates: loop {
        let mut added = session.apply_valid(&op)?;
        splices.append(&mut added)?;
        done += 1;
        let next = session.plan(program, done)?;
        match next {
            Some(planned) => op = planned,
            None => break,
        }
    }
    let text = session.close();
    Ok((Edited { text, splices }, done))
}
