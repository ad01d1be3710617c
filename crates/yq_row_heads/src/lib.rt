//! Reads the heads of rows: what comes after a row's last mark.
#![tactic(auto)]

mod content;
mod flow_keys;
mod head;

pub use head::{is_short_plain, read_head, row_head};
