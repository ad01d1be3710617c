//! Moves of a file and its journal.
ghost use Rattle.yq_history.{specs.Leaves.{Leaves, RefusedFor, RefusedOnlyFor}, specs.Effects.move_effect, specs.Pair.IsOther};
ghost use Rattle.yq_history.specs.OpenedAnswers.{CutsShort, GoodAfter, GoodAround, HasMoved, HoldsText, MakesFrom, StaysIfBarred};
ghost use Rattle.yq_history.specs.OpenedAnswers.{way_barred};
ghost use Rattle.std.specs.Prelude.{◌≢◌};
ghost use Rattle.yq_journal.specs.State.{MovesTo};

use crate::{OpenPair, write_journal};
use std::alloc::Global;
use yq_fault::Fault;
use yq_journal::Move;
use yq_store::Store;

/// Carries out a move that changes the text, in three writes: the journal with the move open, the
/// file, and the journal settled. The journal takes the old text, of which nobody else keeps a copy.
pub fn carry_out<D: Store>(
    alloc: Global,
    store: &mut D,
    open: OpenPair<'_>,
    step: Move,
    new: &[u8],
) -> Result<(), Fault>
    requires moves { MovesTo open.state step open.text.items new.now }
    requires changes { new.now ≢ open.text.items }
    ensures ok { GoodAfter D.Store store.old store.new open.entry step new.now result }
    ensures err { GoodAround D.Store store.old store.new open.entry step new.now result }
    ensures text { HoldsText D.Store store.new open.entry.pair new.now result }
    ensures moved { HasMoved D.Store store.new open.entry step result }
    ensures cut { CutsShort D.Store store.old store.new open.entry step new.now result }
    ensures fault { RefusedOnlyFor (way_barred open.entry step) result }
    ensures refused { RefusedFor (way_barred open.entry step) result }
    ensures barred { StaysIfBarred D.Store store.old store.new open.entry step }
    ensures leaves { Leaves D.Store (IsOther open.entry.pair) store.old store.new result }
    ensures calls { MakesFrom D.leads result open.entry (move_effect step) store.old store.new }
{
    let OpenPair {
        pair,
        text,
        mut state,
    } = open;
    state.start_known(step, text, new)?;
    write_journal(alloc, store, pair.journal, &state)?;
    store.replace(pair.file, new)?;
    state.finish(new)?;
    write_journal(alloc, store, pair.journal, &state)
}
