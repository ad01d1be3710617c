//! Undo and redo of a file and its journal.
ghost use Rattle.yq_history.{specs.Actions.walking, specs.Directions.walk_move, specs.Leaves.Leaves, specs.Pair.IsOther};
ghost use Rattle.yq_history.specs.OpenedAnswers.{ActsFrom, MakesFrom, WorksFrom};
ghost use Rattle.yq_history.specs.PairAnswers.{ActsOnPair, CallsAction, WorksOnPair};
ghost use Rattle.std.specs.Prelude.{◌≡◌, None};
ghost use Rattle.yq_journal.{specs.Refusals.way_fault, specs.State.MovesTo};

use crate::{Direction, OpenPair, Pair, carry_out, open_pair, write_journal};
use std::alloc::Global;
use yq_fault::Fault;
use yq_store::Store;

/// Carries out an undo or redo that leaves the text equal: the settled journal alone is written.
fn move_only<D: Store>(
    alloc: Global,
    store: &mut D,
    open: OpenPair<'_>,
    dir: Direction,
) -> Result<(), Fault>
    requires way { way_fault open.state.records open.state.at (walk_move dir) open.text.items ≡ None }
    requires equal { MovesTo open.state (walk_move dir) open.text.items open.text.items }
    ensures arrives { ActsFrom D.Store store.old store.new open.entry (walking dir) result }
    ensures effect { WorksFrom D.Store store.old store.new open.entry (walking dir) result }
    ensures leaves { Leaves D.Store (IsOther open.entry.pair) store.old store.new result }
    ensures calls { MakesFrom D.leads result open.entry (walking dir).effect store.old store.new }
{
    let OpenPair {
        pair,
        text,
        mut state,
    } = open;
    dir.make(&mut state, &text)?;
    write_journal(alloc, store, pair.journal, &state)
}

/// Carries out an undo or a redo next to a settled journal.
fn move_from<D: Store>(
    alloc: Global,
    store: &mut D,
    open: OpenPair<'_>,
    dir: Direction,
) -> Result<(), Fault>
    ensures arrives { ActsFrom D.Store store.old store.new open.entry (walking dir) result }
    ensures effect { WorksFrom D.Store store.old store.new open.entry (walking dir) result }
    ensures leaves { Leaves D.Store (IsOther open.entry.pair) store.old store.new result }
    ensures calls { MakesFrom D.leads result open.entry (walking dir).effect store.old store.new }
{
    let old = open.text.as_slice();
    let new = open.state.target(alloc, &dir.step(), old)?;
    if new.as_slice() == old {
        move_only(alloc, store, open, dir)
    } else {
        carry_out(alloc, store, open, dir.step(), &new)
    }
}

/// Undoes or redoes an edit of a file.
pub fn move_file<D: Store>(
    alloc: Global,
    store: &mut D,
    pair: &Pair<'_>,
    dir: Direction,
) -> Result<(), Fault>
    ensures arrives { ActsOnPair D.Store store.old store.new pair.now (walking dir) result }
    ensures effect { WorksOnPair D.Store store.old store.new pair.now (walking dir) result }
    ensures leaves { Leaves D.Store (IsOther pair.now) store.old store.new result }
    ensures calls { CallsAction D.leads result pair.now (walking dir) store.old store.new }
{
    let (text, state) = open_pair(alloc, store, pair)?;
    let open = OpenPair {
        pair: *pair,
        text,
        state,
    };
    move_from(alloc, store, open, dir)
}
