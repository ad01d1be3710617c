//! Scalars of YAML where they are in a text, block scalars among them, and scalars as they are written.
#![tactic(auto)]

pub mod block;
pub mod block_content;
pub mod block_laws;
pub mod block_repair;
pub mod block_written;
mod piece_content;
pub mod plain_laws;
mod plain_piece;
pub mod quoted_laws;
mod quoted_piece;
mod write;
pub mod written_laws;

pub use block::read_block;
pub use block_repair::repair;
pub use block_written::write_block;
pub use piece_content::content;
pub use plain_piece::read_plain;
pub use quoted_piece::read_quoted;
pub use write::write_scalar;
pub use yq_core::{
    Break, FaultKind, Kind, Piece, Place, ReadError, ReadFault, Scalar, Style, further_spaces,
    is_true_word, resolve,
};
pub use yq_scalar_reader::{
    are_distinct, can_write, in_flow, int_value, is_plain_content, is_quoted_content, push_spaces,
};
