//! What texts of YAML are made of: characters and lines, plain, quoted and block scalars, the core schema,
//! and inline nodes.
//! The tree that a document means, with paths in it and values.
#![tactic(auto)]

mod ascii;
pub mod block_header;
pub mod block_lines;
mod block_types;
mod borrowed;
pub mod characters;
mod fault;
pub mod fault_place;
mod gap;
mod inline;
mod kind;
pub mod lines;
mod path;
pub mod piece;
mod quotes;
mod runs;
mod scalar;
mod schema;
mod style;
pub mod text;
mod tokens;
mod value;

pub use block_types::{Break, LineBefore};
pub use borrowed::BorrowedNode;
pub use characters::is_text_char;
pub use fault::{FaultKind, ReadError, ReadFault};
pub use gap::gap_len;
pub use inline::{Form, Inline};
pub use kind::Kind;
pub use lines::{is_line, line_len, split_at_break, split_line};
pub use path::{DEPTH_LIMIT, Entry, KEY_LIMIT, Step, copied_steps};
pub use piece::{Piece, further_spaces, inline_piece};
pub use quotes::{between_quotes, borrowed_text};
pub use runs::{Run, run_len};
pub use scalar::Scalar;
pub use schema::{are_digits, has_base, is_true_word, resolve};
pub use style::{Place, Style};
pub use text::{
    ends_line, is_blank, is_white, past_white, spaces_len, split_white, without_spaces,
};
pub use tokens::{first_is, is_quoted, strip};
pub use value::Value;
