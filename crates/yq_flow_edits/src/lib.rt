//! Writes values in flow style, and edits flow collections.
#![tactic(auto)]

mod flow_laws;
mod flow_place;
mod removal;
mod valid;
mod write;

pub use flow_laws::{
    appended_in_flow, flow_spells, removed_in_flow, replaced_in_flow, scalar_spells,
    scalar_spells_in_flow,
};
pub use flow_place::{EditPlace, append_place, replace_place};
pub use removal::{bytes_after, remove_between};
pub use valid::value_holds;
pub use write::{push_scalar, write_entry, write_inline};
