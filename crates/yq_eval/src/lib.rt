//! Where pipes lead in the tree of a document, and the matches of a read: copies of what its pipe finds in
//! documents.
#![tactic(auto)]

mod matched;
mod matching;

pub use matched::{Match, matches};
pub use matching::copy::copy_at;
pub use matching::found::{FoundPlaces, find_places};
pub use matching::owned;
pub use matching::pipe::{find, pipe_on};
pub use matching::place::{FoundPlace, Missing, NodePath, NodeStep, step_to};
pub use matching::steps::{at_place, path_steps};
