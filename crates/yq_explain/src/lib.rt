//! What a person reads about a refusal: where it is, why, and what can be done.
#![tactic(auto)]

mod advice;
mod caret;
mod codes;
mod expected;
mod expression;
mod first_words;
mod marks;
mod misread;
mod parts;
mod rows;
mod text_place;
mod updates;
mod value_line;
mod value_place;

pub use caret::push_name;
pub use expression::expression_lines;
pub use rows::{code_of, push_rows};
pub use text_place::place_lines;
pub use value_line::named;
