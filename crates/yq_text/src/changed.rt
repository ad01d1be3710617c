//! What an edit changes of a text.

use crate::splice::Splice;

/// What an edit changes of a text whose ends stay.
#[derive(Drop)]
pub struct ChangedMiddle {
    /// How many bytes stay in front of all that is replaced; all, where nothing does.
    pub front: usize,
    /// How many bytes stay after all that is replaced; all, where nothing does.
    pub back: usize,
    /// What is between them in the new text.
    pub new: String,
    /// The splices that, done in order, lead to the new text. An edit that
    /// changes no byte has none.
    pub splices: Vec<Splice>,
}
