//! How large lists are that sums give, known without a copy of their items.
ghost use Rattle.std.specs.Prelude.{◌≡◌, ◌≤◌, None, IfOk, IfSome, false, suc};
ghost use Rattle.yq_core.{specs.Inline.depth_limit, specs.Tree.{Node, list}, specs.Values.value_node};
ghost use Rattle.yq_flow_edits.specs.Valued.{IsValueTree};
ghost use Rattle.yq_semantics.{specs.Changes.has_long_key, specs.RightValues.as_items};
ghost use Rattle.yq_planner.{specs.ListSizes.{HasSize, IsSizeAround, IsSizeOfBoth}, specs.Substitutes.IsSubstitute};

use crate::updating::limits::holds_long_key;
use crate::updating::substitute::{depth_of, in_list, nested_lists};
use std::alloc::{AllocError, Global};
use yq_core::{DEPTH_LIMIT, Value};

/// How large a list with items is.
#[derive(Clone, Copy)]
pub struct ListSize {
    /// How many collections are nested in it, itself among them: at most one more than may be.
    pub depth: usize,
    /// How many items and entries are in it, at any depth: so many at least.
    pub items: usize,
}

impl ListSize {
    /// The size of the list of both lists' items.
    pub fn with(&self, other: &ListSize) -> ListSize
        ensures { IsSizeOfBoth self.now other.now result }
    {
        ListSize {
            depth: self.depth.max(other.depth),
            items: self.items.saturating_add(other.items),
        }
    }
}

/// The size of a list of one item, in which so many collections are nested.
fn size_around(nested: usize) -> ListSize
    requires { nested ≤ suc depth_limit }
    ensures { IsSizeAround nested result }
{
    ListSize {
        depth: (nested + 1).min(DEPTH_LIMIT + 1),
        items: 1,
    }
}

/// The size of what a list gets from a value without too long a key: from a list its items, and else the value
/// as one item.
fn size_of_added(value: &Value) -> Option<ListSize>
    requires { has_long_key (value_node value.now) ≡ false }
    ensures { IfSome result (HasSize (list None (as_items (value_node value.now)))) }
{
    let depth = depth_of(value);
    match value {
        Value::List(items) => {
            if items.is_empty() {
                return None;
            }
            Some(ListSize {
                depth,
                items: items.len(),
            })
        }
        Value::Scalar(_) => Some(size_around(depth)),
        Value::Map(_) => Some(size_around(depth)),
    }
}

/// The size of the list of what a list gets from a value: the items of a list, or the value as one item; nothing
/// where that is none, or has too long a key.
///
/// # Errors
/// [`AllocError`] where memory is refused.
pub fn added_size(alloc: Global, value: &Value) -> Result<Option<ListSize>, AllocError>
    ensures size { IfOk result (λ o. IfSome o (HasSize (list None (as_items (value_node value.now))))) }
    ensures valid { IfOk result (λ o. IfSome o (λ _. IsValueTree (value_node value.now))) }
{
    if holds_long_key(alloc, value)? {
        return Ok(None);
    }
    Ok(size_of_added(value))
}

/// A small list that is refused where a list of that size is.
///
/// # Errors
/// [`AllocError`] where memory is refused.
pub fn list_of_size(alloc: Global, size: &ListSize) -> Result<Value, AllocError>
    ensures { IfOk result (λ w. (v : Node) → HasSize v size.now → IsSubstitute v (value_node w)) }
{
    let inside = nested_lists(alloc, size.depth.saturating_sub(1))?;
    in_list(alloc, inside)
}
