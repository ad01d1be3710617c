//! Terms of right sides, and their sums.

pub mod right_value;
pub mod same_term;
