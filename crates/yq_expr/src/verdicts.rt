//! Whether an update is refused, with no copy of its value for each place.

pub mod judged_places;
pub mod judging;
