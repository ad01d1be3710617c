//! What an update changes at a place, what refuses it, and the operations that carry it out.
#![tactic(auto)]

mod updating;

pub use updating::added::added;
pub use updating::allowed::allow;
pub use updating::anchors::{Aliases, aliases_of};
pub use updating::change::{Addition, Change, ChangesUnder, PlacedChange};
pub use updating::comment_text::has_comment;
pub use updating::copied::copied;
pub use updating::limits::{holds_long_key, is_long_key};
pub use updating::list_size::{ListSize, added_size, list_of_size};
pub use updating::operations::{operations, push_changes};
pub use updating::repeated::sum_times;
pub use updating::substitute::substitute;
pub use updating::sum::{is_null, scalar_sum};
