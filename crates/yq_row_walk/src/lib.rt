//! The lines that rows have, and where steps lead among them, row by row.
#![tactic(auto)]

mod extent;
mod known_count;
mod known_item;
mod known_key;
mod known_line;
mod position;
mod position_find;
mod position_marks;
mod position_reach;
mod walk;
mod written_key;

pub use extent::{dash_at, head_place, lines_before_mark, row_len, row_start};
pub use known_count::{counted, first_known, known_to};
pub use known_item::{item_before, known_among};
pub use known_line::walk_start;
pub use position::{is_deeper, level_at, line_column, next, position_after, rank_at, rows_under};
pub use position_find::{find_item, find_key, find_step};
pub use position_marks::{has_head, is_bare, is_item_at};
pub use position_reach::{begins_with_node, line_at, next_at, reach};
pub use walk::{KnownLine, Walk};
