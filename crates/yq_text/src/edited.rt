//! What an edit gives.

use crate::splice::Splice;

/// A text after an edit.
#[derive(Debug, Drop)]
pub struct Edited {
    pub text: String,
    /// The splices that, done in order, make it of the old text. An edit that
    /// changes no byte has none.
    pub splices: Vec<Splice>,
}
