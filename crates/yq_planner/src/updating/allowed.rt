//! What refuses a change.
ghost use Rattle.std.specs.Prelude.{IfOk};
ghost use Rattle.yq_planner.specs.ChangeAnswers.{JudgesChangeOf, IsWhetherOverwritten, GivesWhetherOverwritten, GivesWhetherTaken};
ghost use Rattle.yq_planner.{specs.ChangeView.change_of, specs.ValidChanges.IsValidChange};

use crate::updating::anchors::{Aliases, is_used_in, is_used_inside};
use crate::updating::change::{Addition, Change};
use crate::updating::change_limits::{is_too_deep, is_too_long};
use crate::updating::entry_index::{EntryIndex, find, index_of};
use std::alloc::{AllocError, Global};
use yq_nodes::Node;
use yq_semantics::{ExprError, Refusal};

/// Whether what is overwritten by an addition to a mapping holds an anchor that
/// an alias names.
fn overwrites_used(aliases: &Aliases<'_>, index: &EntryIndex<'_, '_>, addition: &Addition) -> bool
    ensures { IsWhetherOverwritten aliases.now index.now addition.now result }
{
    let Addition::Overwrites(key, _) = addition else {
        return false;
    };
    match find(index, key.as_str()) {
        Some(old) => is_used_inside(aliases, old),
        None => false,
    }
}

/// The same of some addition.
fn some_overwrites_used(
    alloc: Global,
    aliases: &Aliases<'_>,
    node: &Node<'_, '_>,
    additions: &[Addition],
) -> Result<bool, AllocError>
    ensures { GivesWhetherOverwritten aliases.now node.now additions.now result }
{
    let index = index_of(alloc, node)?;
    'each: for addition in additions {
        if overwrites_used(aliases, &index, addition) {
            return Ok(true);
        }
    }
    Ok(false)
}

/// Whether what is removed or overwritten at a node holds such an anchor.
fn takes_used(
    alloc: Global,
    aliases: &Aliases<'_>,
    node: &Node<'_, '_>,
    change: &Change,
) -> Result<bool, AllocError>
    ensures { GivesWhetherTaken aliases.now node.now change.now result }
{
    if aliases.is_empty() {
        return Ok(false);
    }
    match change {
        Change::Replaces(_) => Ok(is_used_inside(aliases, node)),
        Change::Adds(additions) => some_overwrites_used(alloc, aliases, node, additions),
        Change::Removes => Ok(is_used_in(aliases, node)),
        Change::SetsComment(..) => Ok(false),
    }
}

/// Refuses a change of a node, so many steps below the root, that can't be made:
/// too long a key, collections nested too deep, or an alias's anchor that would
/// go.
pub fn allow(
    alloc: Global,
    aliases: &Aliases<'_>,
    node: &Node<'_, '_>,
    outer: usize,
    change: &Change,
) -> Result<(), ExprError>
    ensures allowed { JudgesChangeOf aliases.now node.now outer change.now result }
    ensures valid { IfOk result (λ _. IsValidChange (change_of change.now)) }
{
    if is_too_long(alloc, change)? {
        return Err(Refusal::KeyTooLong.error());
    }
    if is_too_deep(outer, change) {
        return Err(Refusal::TooDeep.error());
    }
    if takes_used(alloc, aliases, node, change)? {
        return Err(Refusal::AnchorInUse.error());
    }
    Ok(())
}
