//! Which bytes of a text operations replace, and values written in block style.
//! Laws of what a text reads as when rows of one of its documents are replaced, added or removed.
#![tactic(auto)]

pub mod documents;
mod entry;
mod laws;
mod layout;
pub mod operations;
mod pieces;
pub mod placement;
mod printing;
pub mod removals;
pub mod rooms;
mod style;
mod write;
mod written_value;

pub use entry::{Child, push_entry};
pub use laws::{block_placed, block_read, block_written};
pub use layout::Layout;
pub use printing::print;
pub use style::is_same;
pub use write::{indent_step, is_filled, push_block};
pub use written_value::{
    after_a_space, break_and_lines, compact_text, lines_and_break, takes_compact, value_text,
};
