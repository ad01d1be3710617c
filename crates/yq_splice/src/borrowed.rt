//! What is done on the halves of a session's text and on its rows, while they are borrowed.
ghost use Rattle.std.specs.Prelude.{◌<◌, IfErr, IfOk, OnErr};
ghost use Rattle.yq_documents.specs.Reading.{documents_of};
ghost use Rattle.yq_text.specs.Halves.{whole};
ghost use Rattle.yq_places.specs.RowWalk.{HasCut};
ghost use Rattle.yq_lookup.specs.Knowledge.{IsKnowledge};
ghost use Rattle.yq_semantics.{specs.Operations.operation_of, specs.Program.update_count, specs.View.program_of};
ghost use Rattle.yq_edit_laws.specs.Answers.{Edits, EditFails};
ghost use Rattle.yq_expr.specs.FixedPaths.{IfAny, IsSole, PlansAlone};
ghost use Rattle.yq_splice.specs.Session.{IsChangeBy, Knows, KnowsAfter, carried_by_cut};

use std::alloc::{AllocError, Global};
use std::mem;
use yq_expr::{Program, plan_by_rows};
use yq_lookup::{CutText, Knowledge};
use yq_operation::{carry_along, change_one};
use yq_row_table::Rows;
use yq_semantics::{ExprError, Op};
use yq_text::{ChangedMiddle, Edited, Halves};

/// What an operation changes in a text of which something is known. From then on that is known which is known after it.
pub(crate) fn change_in<'d, 'o: 'd, 't>(
    alloc: Global,
    text: Halves<'t>,
    rows: &'d Rows<'t>,
    known: &mut Knowledge,
    op: &'o Op,
) -> Result<ChangedMiddle, ExprError>
    requires cut { HasCut (whole text) rows.now }
    requires known { IsKnowledge rows.now known.old }
    ensures ok { IfOk result (IsChangeBy (operation_of op.now) (whole text.entry)) }
    ensures known { IfOk result (KnowsAfter (whole text.entry) known.new) }
    ensures kept { OnErr result (Knows (whole text.entry) known.new) }
    ensures err { IfErr result (λ e. EditFails e
        (carried_by_cut (operation_of op.now) (whole text.entry))) }
{
    let before = mem::replace(known, Knowledge::none(alloc));
    let mut cut = CutText::resumed(text, rows, before);
    change_one(alloc, &mut cut, known, op)
}

/// An operation carried out on a text of which something is known.
pub(crate) fn carry_in<'d, 'o: 'd, 't>(
    alloc: Global,
    text: Halves<'t>,
    rows: &'d Rows<'t>,
    known: Knowledge,
    op: &'o Op,
) -> Result<Edited, ExprError>
    requires cut { HasCut (whole text) rows.now }
    requires known { IsKnowledge rows.now known }
    ensures { Edits result (carried_by_cut (operation_of op.now) (whole text.entry)) }
{
    let mut cut = CutText::resumed(text, rows, known);
    carry_along(alloc, &mut cut, op)
}

/// The operation that carries out update `nth` of a program on a text of which something is known, if rows
/// plan it, and what is known after that.
pub(crate) fn plan_in<'d, 't>(
    alloc: Global,
    text: Halves<'t>,
    rows: &'d Rows<'t>,
    known: Knowledge,
    program: &Program,
    nth: usize,
) -> (Result<Option<Op>, AllocError>, Knowledge)
    requires cut { HasCut (whole text) rows.now }
    requires known { IsKnowledge rows.now known }
    requires sole { IsSole (documents_of (whole text)) }
    ensures within { IfAny result.0 (λ _. nth < update_count (program_of program.now)) }
    ensures plans { IfAny result.0 (PlansAlone nth program.now (whole text.entry)) }
    ensures known { Knows (whole text.entry) result.1 }
{
    let mut cut = CutText::resumed(text, rows, known);
    let planned = plan_by_rows(alloc, &mut cut, program, nth);
    (planned, cut.known_before(alloc, usize::MAX))
}
