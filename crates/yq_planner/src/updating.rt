//! Updating: what an update changes at a place, what refuses it, and the operations that carry it out.

pub(crate) mod added;
pub(crate) mod allowed;
pub(crate) mod anchors;
pub(crate) mod change;
pub(crate) mod change_limits;
pub(crate) mod comment_text;
pub(crate) mod copied;
pub(crate) mod entry_index;
pub(crate) mod holding;
pub(crate) mod key_numbers;
pub(crate) mod limits;
pub(crate) mod list_size;
pub(crate) mod operations;
pub(crate) mod repeated;
pub(crate) mod same_value;
pub(crate) mod substitute;
pub(crate) mod sum;
