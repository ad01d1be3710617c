//! How long a text may be, and a text in two halves, so that an edit between them moves no other byte.
//! Edits of a text as segments that stay or are replaced, the text that they make, and the splices that lead
//! to it.
#![tactic(auto)]

mod changed;
mod changing;
mod draft;
mod edited;
mod exchanging;
mod halves;
mod laws;
mod segment;
mod splice;
mod text_gap_buffer;

pub use changed::ChangedMiddle;
pub use changing::changes;
pub use edited::Edited;
pub use exchanging::exchange;
pub use halves::Halves;
pub use laws::{changes_lead, outside_stays, touching_are_one, unchanged_stay};
pub use segment::{Segment, Segments};
pub use splice::{Splice, splice_exchanges, splices_invert};
pub use text_gap_buffer::TextGapBuffer;

/// How many bytes a text has at most.
pub const TEXT_LIMIT: usize = 16_777_216;
