//! What the words of `eval` ask for.

use crate::EvalOptions;

/// What `eval` is asked, but for whether it is carried out in place.
#[derive(Drop)]
pub struct EvalWords {
    pub expr: String,
    pub file: String,
    pub journal: String,
    pub options: EvalOptions,
}
