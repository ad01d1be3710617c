//! How large a sum is that is a list or a string.
ghost use Rattle.std.specs.Prelude.{◌≡◌, IfOk, IfSome, true};
ghost use Rattle.yq_expr.specs.SumSizes.{IsJoinedSize, IsLargeSum, IsSmallFor, ItemsOfSize};

use std::alloc::{AllocError, Global};
use yq_core::{Scalar, Value};
use yq_planner::{ListSize, list_of_size};
use yq_text::TEXT_LIMIT;

/// How many items a text may have: each takes two bytes at least.
pub(crate) const ITEMS_LIMIT: usize = TEXT_LIMIT / 2;

/// How large a sum is: a list, or a string of so many bytes.
#[derive(Clone, Copy)]
pub(crate) enum SumSize {
    List(ListSize),
    Text(usize),
}

impl SumSize {
    /// The size of the sum with a term more of that size; nothing, where one is a list and the other a string.
    pub(crate) fn with(&self, other: &SumSize) -> Option<SumSize>
        ensures { IfSome result (IsJoinedSize self.now other.now) }
    {
        match (self, other) {
            (SumSize::List(one), SumSize::List(other)) => Some(SumSize::List(one.with(other))),
            (SumSize::Text(one), SumSize::Text(other)) => {
                Some(SumSize::Text(one.saturating_add(*other)))
            }
            _ => None,
        }
    }

    /// How many items and entries are in it, of which eight bytes of a string count as one: so many at least.
    #[tactic(auto, using(crate::proofs::SumLaws::list_items, crate::proofs::SumLaws::text_items))]
    pub(crate) fn items(&self) -> usize
        ensures { ItemsOfSize self.now result }
    {
        match self {
            SumSize::List(size) => size.items,
            SumSize::Text(length) => *length / 8,
        }
    }

    /// Whether no text can hold it, where a string comes after that string.
    #[tactic(auto, using(crate::proofs::SumLaws::large_list, crate::proofs::SumLaws::large_text))]
    pub(crate) fn is_too_large(&self, before: &str) -> bool
        ensures { result ≡ true → IsLargeSum before.now self.now }
    {
        match self {
            SumSize::List(size) => size.items > ITEMS_LIMIT,
            SumSize::Text(length) => length.saturating_add(before.len()) / 8 > ITEMS_LIMIT,
        }
    }

    /// A small value that is refused where what has that size is.
    pub(crate) fn small_value(&self, alloc: Global) -> Result<Value, AllocError>
        ensures { IfOk result (IsSmallFor self.now) }
    {
        match self {
            SumSize::List(size) => {
                let small = list_of_size(alloc, size)?;
                Ok(small)
            }
            SumSize::Text(_) => Ok(Value::Scalar(Scalar::string(String::new(alloc)))),
        }
    }
}
