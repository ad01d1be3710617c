//! Changes at places, which nothing refuses.
ghost use Rattle.std.specs.Prelude.{◌≡◌, map};
ghost use Rattle.yq_core.specs.Entries.{tree_step};
ghost use Rattle.yq_eval.specs.PlaceView.{path_of, place_of};
ghost use Rattle.yq_planner.{specs.ChangeView.placed_change, specs.ValidChanges.StayValid};
ghost use Rattle.yq_expr.specs.JudgedChanges.{JudgesAllowed};
ghost use Rattle.yq_semantics.specs.Judgement.{gives};

use std::alloc::Global;
use yq_eval::FoundPlace;
use yq_planner::{Aliases, PlacedChange, allow};
use yq_semantics::ExprError;

/// Adds the change of a node at a place to others, if nothing refuses it.
#[tactic(auto, using(yq_planner::proofs::ValidLaws::each_more))]
pub fn push_change(
    alloc: Global,
    aliases: &Aliases<'_>,
    place: &FoundPlace<'_, '_>,
    changed: PlacedChange,
    changes: &mut Vec<PlacedChange>,
) -> Result<(), ExprError>
    requires { map tree_step changed.path.items ≡ path_of place.now.path }
    ensures change { JudgesAllowed aliases.now (place_of place.now)
        (gives (placed_change (place_of place.now) changed.change))
        changes.old.items changes.new.items result }
    ensures valid { StayValid result changes.old.items changes.new.items }
{
    let PlacedChange { path, change } = &changed;
    allow(alloc, aliases, &place.node, path.len(), change)?;
    changes.push(changed)?;
    Ok(())
}
