//! An edited text, kept in its file next to the journal.
ghost use Rattle.std.specs.Prelude.{◌≡◌, Some, IfOk, length};
ghost use Rattle.yq_text.specs.Splice.{lengths_done};
ghost use Rattle.yq_commands.{specs.CommandDone.{CallsOfEdit, EditsByAny, LeavesText}, specs.Editing.{LengthsLead, SplicesLead}};
ghost use Rattle.yq_commands.specs.Edits.{record_between};
ghost use Rattle.yq_history.{specs.Leaves.Leaves, specs.Pair.IsOther};

use std::alloc::{AllocError, Global};
use yq_fault::Fault;
use yq_history::{OpenPair, carry_out};
use yq_journal::{Move, Record};
use yq_store::Store;
use yq_text::{Edited, Splice};

/// The record of an edit from one text to another.
fn record_of(
    alloc: Global,
    expr: &str,
    splices: Vec<Splice>,
    old: &[u8],
    new: &[u8],
) -> Result<Record, AllocError>
    requires lengths { lengths_done splices.items (length old.now) ≡ Some (length new.now) }
    ensures { IfOk result (λ r. r ≡ record_between expr.now splices.items old.now new.now) }
{
    let expr = String::from_str(alloc, expr)?;
    Ok(Record::new(expr, splices, old.len() as u64, new.len() as u64))
}

/// Carries out an edit of a file next to its settled journal. One to an equal text writes nothing.
pub fn commit<D: Store>(
    alloc: Global,
    store: &mut D,
    open: OpenPair<'_>,
    expr: &str,
    edited: Edited,
) -> Result<(), Fault>
    requires lengths { LengthsLead open.text.items edited }
    requires leads { SplicesLead open.text.items edited }
    ensures done { EditsByAny D.Store store.old store.new open.entry expr.now edited result }
    ensures text { LeavesText D.Store store.old store.new open.entry edited result }
    ensures leaves { Leaves D.Store (IsOther open.entry.pair) store.old store.new result }
    ensures calls { CallsOfEdit D.leads result open.entry expr.now edited store.old store.new }
{
    let Edited { text, splices } = edited;
    let new = text.as_bytes();
    if new == open.text.as_slice() {
        return Ok(());
    }
    let edit = record_of(alloc, expr, splices, &open.text, new)?;
    carry_out(alloc, store, open, Move::Edit(edit), new)
}
