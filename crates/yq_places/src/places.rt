//! Where entries, contents and comments are among rows; what is there, in pieces; and what is taken out.

pub mod comment_place;
pub mod content_place;
pub mod entry_place;
pub mod entry_placement;
pub mod first_break;
pub mod first_removal;
pub mod flow_node;
pub mod halves;
pub mod held;
pub mod held_row;
pub mod known_at;
pub mod known_end;
pub mod lines_above;
pub mod lines_cut;
pub mod node_at;
pub mod node_place;
pub mod piece;
pub mod placement;
pub mod removal_place;
pub mod root_placement;
mod row_place;
pub mod rows_of_entry;
pub mod steps;
pub mod way;
mod written;
