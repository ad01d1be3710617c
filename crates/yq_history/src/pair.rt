//! A file and its journal, read from a store and written to it.
ghost use Rattle.yq_history.{specs.Leaves.{HasState, Leaves, LeavesAll}, specs.Calls.{PutsJournal, ReadsJournal}};
ghost use Rattle.yq_history.specs.PairAnswers.{BadOnlyIfNone, IsReadFrom, FindsPair, MissesPair, OpensText, OpensBy, OpensPair};
ghost use Rattle.yq_history.specs.PairAnswers.{WritesState, MayWriteState};
ghost use Rattle.yq_fault.specs.Faults.{is_outer_fault};
ghost use Rattle.std.specs.Prelude.{◌≢◌, IfOk, IfErr, IsTrue, IsNone};

use crate::Pair;
use std::alloc::Global;
use yq_fault::Fault;
use yq_journal::Journal;
use yq_store::Store;

/// Reads a journal; one that isn't there is that of a file that was never edited.
fn read_journal<D: Store>(alloc: Global, store: &mut D, journal: &str) -> Result<Journal, Fault>
    ensures ok { IsTrue D.keeps → IfOk result (λ j. HasState (D.content store.old) journal.now j) }
    ensures err { IsTrue D.keeps → BadOnlyIfNone (D.content store.old) journal.now result }
    ensures leaves { LeavesAll D.Store store.old store.new result }
    ensures calls { ReadsJournal D.leads result journal.now (IsReadFrom result) store.old store.new }
{
    match store.read(alloc, journal) {
        Ok(bytes) => Ok(Journal::from_json(alloc, &bytes)?),
        Err(Fault::NotThere) => Ok(Journal::new(alloc)),
        Err(fault) => Err(fault),
    }
}

/// Writes a journal.
pub fn write_journal<D: Store>(
    alloc: Global,
    store: &mut D,
    journal: &str,
    state: &Journal,
) -> Result<(), Fault>
    ensures ok { WritesState D.Store store.old store.new journal.now state.now result }
    ensures err { MayWriteState D.Store store.old store.new journal.now state.now result }
    ensures outside { IfErr result (λ e. IsTrue (is_outer_fault e)) }
    ensures leaves { Leaves D.Store (λ q. q ≢ journal.now) store.old store.new result }
    ensures calls { PutsJournal D.leads result journal.now state.now store.old store.new }
{
    let bytes = state.to_json(alloc)?;
    store.replace(journal, &bytes)?;
    Ok(())
}

/// Reads a file and its journal, and settles the journal in memory.
pub fn open_pair<D: Store>(
    alloc: Global,
    store: &mut D,
    pair: &Pair<'_>,
) -> Result<(Vec<u8>, Journal), Fault>
    ensures opens { OpensPair D.Store store.old store.new pair.now result }
    ensures found { IsTrue D.keeps → FindsPair (D.content store.old) pair.now result }
    ensures missed { IsTrue D.keeps → MissesPair (D.content store.old) pair.now result }
    ensures text { IsTrue D.keeps → OpensText (D.content store.old) pair.now result }
    ensures at_rest { IfOk result (λ p. IsNone p.1.pending) }
    ensures leaves { LeavesAll D.Store store.old store.new result }
    ensures calls { OpensBy D.leads result pair.now store.old store.new }
{
    let text = store.read(alloc, pair.file)?;
    let mut state = read_journal(alloc, store, pair.journal)?;
    state.settle(&text)?;
    Ok((text, state))
}
