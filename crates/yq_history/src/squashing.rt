//! Squashes: the last edits of a file joined into one in its journal.
ghost use Rattle.yq_history.{specs.Actions.squashing, specs.Leaves.{Leaves, RefusedFor}};
ghost use Rattle.yq_history.specs.OpenedAnswers.{ActsFrom, MakesFrom, WorksFrom};
ghost use Rattle.yq_history.specs.PairAnswers.{ActsOnPair, CallsAction, WorksOnPair};
ghost use Rattle.std.specs.Prelude.{◌≡◌, ◌≢◌, IsTrue};
ghost use Rattle.yq_journal.specs.Refusals.{squash_fault};

use crate::{OpenPair, Pair, open_pair, write_journal};
use std::alloc::Global;
use yq_fault::Fault;
use yq_store::Store;

/// Joins the last `n` done edits of a settled journal and writes it; of one edit it writes nothing.
fn squash_from<D: Store>(
    alloc: Global,
    store: &mut D,
    open: OpenPair<'_>,
    n: u64,
) -> Result<(), Fault>
    ensures arrives { ActsFrom D.Store store.old store.new open.entry (squashing n) result }
    ensures effect { WorksFrom D.Store store.old store.new open.entry (squashing n) result }
    ensures refused { RefusedFor (squash_fault open.entry.state n) result }
    ensures one { IsTrue D.keeps → n ≡ 1 → D.content store.new ≡ D.content store.old }
    ensures leaves { Leaves D.Store (λ q. q ≢ open.entry.pair.journal.now) store.old store.new result }
    ensures calls { MakesFrom D.leads result open.entry (squashing n).effect store.old store.new }
{
    let OpenPair {
        pair,
        text: _text,
        mut state,
    } = open;
    state.squash(n)?;
    if n == 1 {
        return Ok(());
    }
    write_journal(alloc, store, pair.journal, &state)
}

/// Joins the last `n` done edits of a file into one. The file isn't written.
pub fn squash<D: Store>(alloc: Global, store: &mut D, pair: &Pair<'_>, n: u64) -> Result<(), Fault>
    ensures arrives { ActsOnPair D.Store store.old store.new pair.now (squashing n) result }
    ensures effect { WorksOnPair D.Store store.old store.new pair.now (squashing n) result }
    ensures one { IsTrue D.keeps → n ≡ 1 → D.content store.new ≡ D.content store.old }
    ensures leaves { Leaves D.Store (λ q. q ≢ pair.now.journal.now) store.old store.new result }
    ensures calls { CallsAction D.leads result pair.now (squashing n) store.old store.new }
{
    let (text, state) = open_pair(alloc, store, pair)?;
    let open = OpenPair {
        pair: *pair,
        text,
        state,
    };
    squash_from(alloc, store, open, n)
}
