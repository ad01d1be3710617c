//! Inline nodes of YAML: aliases, plain and quoted scalars and flow collections, with their anchors.
//! Finding where they end, and walking those whose scalars are slices of the text, takes no memory.
#![tactic(auto)]

mod along;
mod before_offset;
mod borrowed;
mod borrowed_entries;
pub mod borrows;
pub mod fault;
mod forms;
mod heads;
mod item;
mod keys;
mod laws;
mod lead;
mod leading_parts;
pub mod measuring;
mod neighbours;
mod parts;
mod passing;
pub mod pieces;
mod read;
pub mod reading;
mod scalar;
pub mod short;

pub use along::{NodeAlong, read_along, read_part};
pub use before_offset::LeadingNode;
pub use borrowed::Passed;
pub use borrowed_entries::entry_in;
pub use forms::{BorrowedForm, form_of};
pub use heads::{MeasuredHead, measure_head, pass_head};
pub use keys::{Keys, take_distinct};
pub use laws::{entry_places, one_inline, one_tree};
pub use lead::read_gap;
pub use neighbours::{CollectionEnd, Neighbours, collection_end, part_neighbours};
pub use parts::{BorrowedEntry, BorrowedParts};
pub use passing::PassedPart;
pub use read::read_inline;
pub use scalar::{plain_kind, style_of};
pub use yq_core::{DEPTH_LIMIT, Entry, Form, Inline, ReadFault, Step, Value, first_is, gap_len};
