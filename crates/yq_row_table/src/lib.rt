//! Rows of a text: what a cut into rows is, its laws, and cuts kept by where their rows are.
#![tactic(auto)]

mod block;
mod bounds;
mod ends;
mod offsets;
mod part_ends;
mod places;
mod row;
mod row_pieces;
mod rows;

pub use bounds::before_column;
pub use ends::{Bound, EndPlace, Measure, Shift, end_of};
pub use offsets::Offsets;
pub use part_ends::PartEnds;
pub use places::Places;
pub use row::Row;
pub use rows::{Other, Rows, begins_document};
