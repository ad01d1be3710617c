//! How large values are that no text can hold, known without making them.

pub mod item_counts;
pub mod oversized;
pub mod spread;
pub mod sum_sizes;
pub mod sums;
pub mod value_sizes;
