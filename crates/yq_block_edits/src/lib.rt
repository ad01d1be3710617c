//! The segments of a text that an operation replaces outside flow collections: values put at a place,
//! items and entries that are added or removed, and comments.
#![tactic(auto)]

mod append;
mod asked;
mod head_comment;
mod kept;
mod layout;
mod line_comment;
mod lone;
mod pieces;
mod removing;
mod replace;
mod space;

pub use append::{more_at, more_written};
pub use head_comment::{head_comment_at, head_comment_written};
pub use kept::{is_kept, is_kept_in_row};
pub use line_comment::{comment_written, line_comment_at};
pub use lone::{lone_put, no_rows_put, root_put};
pub use removing::one_removed;
pub use replace::value_put_at;
pub use space::apart;
