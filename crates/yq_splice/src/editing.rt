//! Editing: a program carried out on a text.
ghost use Rattle.std.specs.Prelude.{◌≡◌, ◌++◌, ◌<◌, ◌≤◌, ℕ, List, [], Some, IfErr, IfOk, string_bytes};
ghost use Rattle.yq_documents.specs.Reading.{cut_of, documents_of, read_at};
ghost use Rattle.yq_expr.{specs.FixedPaths.{IfAny, IsSole, PlansAlone}, specs.Parts.IsInOrder};
ghost use Rattle.yq_semantics.{specs.Program.{LiteralsHold, Update, update_at, update_count, updates}, specs.View.program_of};
ghost use Rattle.yq_edit_laws.{specs.Answers.Edits, specs.Theorems.{AreSplices, InOrder, IsEdited}};
ghost use Rattle.yq_edit_laws.specs.Valid.{FailsAt, FailsEach, IsStep, ProgramFails};
ghost use Rattle.yq_splice.{specs.Answers.{EditRefused, EditsText}, specs.Updates.{FailAfter, LeadOn}};
ghost use Rattle.yq_edit_laws.specs.Carried as spec;

use crate::carrying::{read_again, session_on};
use crate::in_parts::carry_parts;
use crate::planned::carry_plan;
use crate::updating::update_session;
use std::alloc::{AllocError, Global};
use yq_documents::Documents;
use yq_explain::named;
use yq_expr::{Program, Refusal, is_heavy, is_sole, judge, plan_by_rows, plan_under};
use yq_fault::{EditError, Fault, unnamed};
use yq_lookup::CutText;
use yq_semantics::Op;
use yq_text::{Edited, Splice};
use yq_tree::read;

/// The text as it is.
fn unchanged(alloc: Global, text: &str) -> Result<Edited, AllocError>
    ensures { IfOk result (λ e. (string_bytes e.text ≡ text.now) × (e.splices.items ≡ [])) }
{
    Ok(Edited {
        text: String::from_str(alloc, text)?,
        splices: Vec::new(alloc),
    })
}

/// Update `nth` of a program carried out on a text that was read: judged first, and then carried out part by
/// part.
fn step_in_parts(
    alloc: Global,
    text: &str,
    documents: &Documents<'_>,
    splices: Vec<Splice>,
    program: &Program,
    nth: usize,
) -> Result<Edited, EditError>
    requires within { nth < update_count (program_of program.now) }
    requires literals { LiteralsHold (program_of program.now) }
    requires same { documents.now ≡ text.now }
    requires read { read_at text.now ≡ Some (cut_of text.now) }
    requires order { (u : Update) → update_at nth (program_of program.now) ≡ Some u → IsInOrder u }
    ensures ok { (u : Update) → update_at nth (program_of program.now) ≡ Some u →
        IfOk result (λ e. (cs : List Splice) ×
        IsStep u text.now (string_bytes e.text) cs ×
        (e.splices.items ≡ splices.items ++ cs)) }
    ensures err { (u : Update) → update_at nth (program_of program.now) ≡ Some u →
        IfErr result (λ e. FailsAt e u text.now) }
{
    named(alloc, documents, nth, judge(alloc, program, nth, documents))?;
    unnamed(carry_parts(alloc, text, documents, splices, program, nth))
}

/// Update `nth` of a program carried out on a text that was read: what the reading says of rows, by which it
/// is planned, is kept for its operations.
fn step(
    alloc: Global,
    text: &str,
    documents: Documents<'_>,
    splices: Vec<Splice>,
    program: &Program,
    nth: usize,
) -> Result<Edited, EditError>
    requires within { nth < update_count (program_of program.now) }
    requires literals { LiteralsHold (program_of program.now) }
    requires same { documents ≡ text.now }
    requires read { read_at text.now ≡ Some (cut_of documents) }
    ensures ok { (u : Update) → update_at nth (program_of program.now) ≡ Some u →
        IfOk result (λ e. (cs : List Splice) ×
        IsStep u text.now (string_bytes e.text) cs ×
        (e.splices.items ≡ splices.items ++ cs)) }
    ensures err { (u : Update) → update_at nth (program_of program.now) ≡ Some u →
        IfErr result (λ e. FailsAt e u text.now) }
{
    let heavy = unnamed(is_heavy(alloc, program, nth, &documents))?;
    if heavy {
        return step_in_parts(alloc, text, &documents, splices, program, nth);
    }
    let planned = plan_under(alloc, program, nth, &documents);
    let plan = named(alloc, &documents, nth, planned)?;
    unnamed(carry_plan(alloc, text, documents, splices, plan))
}

/// The operation of update `nth` of a program on documents, if it isn't the last one and rows plan it.
fn planned_by_rows(
    alloc: Global,
    documents: &Documents<'_>,
    program: &Program,
    nth: usize,
) -> Result<Option<Op>, AllocError>
    requires { nth < update_count (program_of program.now) }
    ensures sole { IfAny result (λ _. IsSole (documents_of documents.now)) }
    ensures plans { IfAny result (PlansAlone nth program.now documents.now) }
{
    if program.updates() - nth <= 1 {
        return Ok(None);
    }
    if !is_sole(documents) {
        return Ok(None);
    }
    let mut cut = CutText::of(documents);
    plan_by_rows(alloc, &mut cut, program, nth)
}

/// Update `nth` of a program carried out on the text that those before gave, which was read; and those after
/// it on the rows that are kept, as far as these plan them. With the new text comes how many updates are done.
fn steps(
    alloc: Global,
    text: &str,
    documents: Documents<'_>,
    splices: Vec<Splice>,
    program: &Program,
    nth: usize,
) -> Result<(Edited, usize), EditError>
    requires within { nth < update_count (program_of program.now) }
    requires literals { LiteralsHold (program_of program.now) }
    requires same { documents ≡ text.now }
    requires read { read_at text.now ≡ Some (cut_of documents) }
    ensures ok { LeadOn (program_of program.now) nth text.now splices.items result }
    ensures more { IfOk result (λ x. (nth < x.1) × (x.1 ≤ update_count (program_of program.now))) }
    ensures err { FailAfter (program_of program.now) nth text.now splices.items result }
{
    let planned = planned_by_rows(alloc, &documents, program, nth)?;
    if let Some(first) = planned {
        let session = session_on(alloc, text, documents.into_rows())?;
        return unnamed(update_session(session, splices, program, nth, first));
    }
    let _count = program.updates();
    let edited = step(alloc, text, documents, splices, program, nth)?;
    Ok((edited, nth + 1))
}

/// The updates of a program carried out on a text that was read, one after the other.
fn update_each(
    alloc: Global,
    text: &str,
    documents: Documents<'_>,
    program: &Program,
) -> Result<Edited, EditError>
    requires some { 0 < update_count (program_of program.now) }
    requires literals { LiteralsHold (program_of program.now) }
    requires same { documents ≡ text.now }
    requires read { read_at text.now ≡ Some (cut_of documents) }
    ensures ok { IfOk result (λ e. (us : List Update) → program_of program.now ≡ updates us →
        InOrder IsStep us text.now (string_bytes e.text) e.splices.items) }
    ensures err { IfErr result (λ e. (us : List Update) → program_of program.now ≡ updates us →
        FailsEach e us text.now) }
{
    let (mut edited, mut done) = steps(alloc, text, documents, Vec::new(alloc), program, 0)?;
    let count = program.updates();
    'updates: while done < count {
        let Edited { text, splices } = edited;
        let text = text.as_str();
        let documents = read_again(alloc, text)?;
        let (next, so_many) = steps(alloc, text, documents, splices, program, done)?;
        edited = next;
        done = so_many;
    }
    Ok(edited)
}

/// A program carried out on a text that was read.
fn edit_read(
    alloc: Global,
    text: &str,
    documents: Documents<'_>,
    program: &Program,
) -> Result<Edited, EditError>
    requires literals { LiteralsHold (program_of program.now) }
    requires same { documents ≡ text.now }
    requires read { read_at text.now ≡ Some (cut_of documents) }
    ensures exact { Edits result (spec.program_done (program_of program.now) text.now) }
    ensures edited { IfOk result (λ e. IsEdited (program_of program.now) text.now
        (string_bytes e.text) e.splices.items) }
    ensures refused { IfErr result (λ e. ProgramFails e (program_of program.now) text.now) }
{
    if program.is_read() {
        return unnamed(Err(Refusal::NotAnUpdate.error()));
    }
    if program.updates() == 0 {
        return Ok(unchanged(alloc, text)?);
    }
    update_each(alloc, text, documents, program)
}

/// Carries out a program on a text: one update after the other, and the operations of its plan one
/// after the other. Each byte that no operation names stays.
///
/// Refused, first to last: if the text has no reading; if the program is a read
/// ([`Refusal::NotAnUpdate`]); if an update is refused on the text that the one before left; if a new
/// text would have more than 16,777,216 bytes ([`Refusal::TooLarge`]).
///
/// An update that isn't planned by rows reads the whole text again. After each of its operations but
/// the last, the rows that it wrote are read.
pub fn edit(alloc: Global, text: &str, program: &Program) -> Result<Edited, Fault>
    // The new text, or why there is none.
    ensures exact { EditsText result (spec.edit_of (program_of program.now) text.now) }
    // Each update exchanges segments of the text as it then is, all else stays, and the text after it
    // reads as what the update means.
    ensures edited { IfOk result (λ e. IsEdited (program_of program.now) text.now
        (string_bytes e.text) e.splices.items) }
    // The splices lead from the old text to the new one.
    ensures splices { IfOk result (λ e. AreSplices e.splices.items text.now (string_bytes e.text)) }
    // The text has no reading, or the program or one of its updates is refused for what it means, or for
    // the size of a new text.
    ensures refused { IfErr result (λ e. EditRefused e (program_of program.now) text.now) }
{
    program.literals_hold();
    let documents = read(alloc, text.as_bytes())?;
    Ok(edit_read(alloc, text, documents, program)?)
}
