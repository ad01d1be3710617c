//! Plain and quoted scalars of YAML, read and folded, and what each style can write.
#![tactic(auto)]

mod escaping;
pub mod folded;
pub mod folding;
mod integer;
mod keys;
pub mod plain;
pub mod plain_text;
mod pushing;
pub mod quoted;
pub mod quoted_line;
pub mod same_content;
mod writable;

pub use folded::{Folded, fold_gap, fold_item, inside, split_space};
pub use folding::{plain_content, quoted_content};
pub use integer::int_value;
pub use keys::are_distinct;
pub use plain::{begins_plain, split_plain};
pub use pushing::{push_breaks, push_spaces};
pub use quoted::split_quoted;
pub use same_content::{is_plain_content, is_quoted_content};
pub use writable::{can_write, in_flow, written_style};
