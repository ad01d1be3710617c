//! Updates whose values would take too much memory at once: planned and carried out part by part.
ghost use Rattle.std.specs.Prelude.{◌≡◌, ◌<◌, ◌++◌, IfErr, IfOk, List, Some, string_bytes};
ghost use Rattle.yq_documents.specs.Reading.{cut_of, read_at};
ghost use Rattle.yq_semantics.{specs.Operations.operations_of, specs.Program.{LiteralsHold, Update, update_at, update_count}};
ghost use Rattle.yq_semantics.specs.View.{program_of};
ghost use Rattle.yq_edit_laws.{specs.Answers.Edits, specs.Carried.carry_all, specs.Edit.edit_after};
ghost use Rattle.yq_edit_laws.specs.Valid.{AreServed, FailsAt, IsStep};
ghost use Rattle.yq_splice.specs.Parts.{IsJudged};

use crate::carrying::carry_on;
use std::alloc::Global;
use yq_documents::Documents;
use yq_expr::{Program, plan_part};
use yq_semantics::{ExprError, Op, Refusal};
use yq_text::{Edited, Splice};

/// Operations carried out on the text of an edit; their splices come after its own.
fn carry_part(alloc: Global, done: Edited, ops: &[Op]) -> Result<Edited, ExprError>
    requires { AreServed (operations_of ops.now) (string_bytes done.text) }
    ensures { Edits result (edit_after done.splices.items (carry_all (operations_of ops.now)
        (string_bytes done.text))) }
{
    if ops.is_empty() {
        return Ok(done);
    }
    let Edited { text, splices } = done;
    carry_on(alloc, text.as_str(), splices, ops)
}

/// Carries out update `nth` of a program that nothing refuses on the text of its documents, part by part:
/// each part is planned on these documents, and carried out on the text that those before it gave. Its
/// splices come after others.
pub(crate) fn carry_parts(
    alloc: Global,
    text: &str,
    documents: &Documents<'_>,
    splices: Vec<Splice>,
    program: &Program,
    nth: usize,
) -> Result<Edited, ExprError>
    requires within { nth < update_count (program_of program.now) }
    requires literals { LiteralsHold (program_of program.now) }
    requires same { documents.now ≡ text.now }
    requires read { read_at documents.now ≡ Some (cut_of documents.now) }
    requires judged { (u : Update) → update_at nth (program_of program.now) ≡ Some u →
        IsJudged u documents.now }
    ensures ok { (u : Update) → update_at nth (program_of program.now) ≡ Some u →
        IfOk result (λ e. (cs : List Splice) ×
        IsStep u documents.now (string_bytes e.text) cs ×
        (e.splices.items ≡ splices.items ++ cs)) }
    ensures err { (u : Update) → update_at nth (program_of program.now) ≡ Some u →
        IfErr result (λ e. FailsAt e u documents.now) }
{
    let count = documents.count();
    let mut done = Edited {
        text: String::from_str(alloc, text)?,
        splices,
    };
    let mut doc = 0;
    let mut place = 0;
    'parts: while doc < count {
        let part = plan_part(alloc, program, nth, documents, doc, place)?;
        done = carry_part(alloc, done, &part.ops)?;
        if part.is_oversized {
            return Err(Refusal::TooLarge.error());
        }
        doc = part.doc;
        place = part.place;
    }
    Ok(done)
}
