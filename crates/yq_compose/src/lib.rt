//! Documents read by their rows: what isn't a slice of the text is decoded, and each document is checked.
#![tactic(auto)]

mod ahead;
mod anchors;
mod borrowing;
mod bound;
mod checked;
mod decoding;
mod document;
mod document_names;
mod fit;
mod inline_fault;
mod names;
mod near;
mod nested;
mod parts;
mod reached;
mod reading;
mod row_decoding;
mod sound;

pub use reading::read_rows;
