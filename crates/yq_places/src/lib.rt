//! Where nodes, entries and comments are among the rows of a text: what is there, in pieces, and what is taken out.
#![tactic(auto)]

mod places;

pub use places::comment_place::{head_comment_in, line_comment_in};
pub use places::content_place::content_of;
pub use places::entry_place::entry_of;
pub use places::entry_placement::entry_placement;
pub use places::first_break::break_of;
pub use places::first_removal::first_out;
pub use places::flow_node::{FlowHead, collection_along};
pub use places::halves::{is_text, split_break};
pub use places::held::{EntryMark, Held, held_in};
pub use places::held_row::{HeldRow, row_of_last};
pub use places::known_at::keep_before_offset;
pub use places::known_end::known_end;
pub use places::lines_above::above;
pub use places::lines_cut::{LinesIn, line_end};
pub use places::node_at::{NodeAt, block_node, head_node};
pub use places::node_place::{node_place, place_line};
pub use places::piece::TextPiece;
pub use places::placement::Placement;
pub use places::removal_place::{Seam, own_rows, rows_out};
pub use places::root_placement::rows_placement;
pub use places::rows_of_entry::{RowsOfEntry, entry_along};
pub use places::steps::{StepSearch, first_step, search_step, searched_before};
pub use places::way::{Way, known_along, put_item};
