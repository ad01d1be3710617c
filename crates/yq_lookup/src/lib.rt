//! Where nodes, entries and comments are in a text, found row by row.
#![tactic(auto)]

mod cut_text;
mod flow_part;
mod knowledge;
mod known_at;
mod known_document;
mod laws;
mod line_above;
mod node_at;
mod placement;
mod removal;
mod row_front;
mod spans;
mod walks;

pub use cut_text::CutText;
pub use knowledge::{Knowledge, StepSearches};
pub use known_document::{KnownDocument, KnownDocuments};
pub use laws::{comments_are_there, contents_spell, entries_spell, pieces_exist, pieces_hold};
pub use node_at::FoundNode;
pub use yq_places::{
    EntryMark, FlowHead, Held, HeldRow, LinesIn, NodeAt, Placement, RowsOfEntry, Seam, TextPiece,
    collection_along, line_end, split_break,
};
