//! Documents as trees: the nodes of a text that was read, by its rows.
#![tactic(auto)]

mod borrowed;
mod comment;
mod decoded;
mod documents;
mod indicators;
mod of_row;
mod parts;
mod path;
mod references;

pub use borrowed::decoded_key;
pub use comment::{Comments, comment_text, is_comment, last_run};
pub use decoded::{BORROWED_DEPTH, Decoded, DecodedHead};
pub use documents::{DocumentRows, Documents};
pub use indicators::{anchor_name, is_block_head};
pub use of_row::{decoded_at, known_head};
pub use parts::{document_part, first_is_document, rows_to};
pub use path::{Part, Path, Span};
pub use references::node_refers;
