//! The history of a file in a store: the file and its journal, moved, undone, redone, squashed and listed.
#![tactic(auto)]

mod diff;
mod direction;
mod listed_diffs;
mod moves;
mod opened;
mod pair;
mod printing;
mod report;
mod squashing;
mod undoing;
mod visible;

pub use diff::unified::unified_diff;
pub use direction::Direction;
pub use moves::carry_out;
pub use opened::{OpenPair, Pair};
pub use pair::{open_pair, write_journal};
pub use printing::listing;
pub use report::Report;
pub use squashing::squash;
pub use undoing::move_file;
