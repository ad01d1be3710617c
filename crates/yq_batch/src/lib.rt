//! Operations carried out together on a text that was read once, each after the one before.
#![tactic(auto)]

mod adding;
mod any_order;
mod any_row;
mod change;
mod changed_rows;
mod emptied_rows;
mod empty_heads;
mod gone;
mod head;
mod head_removals;
mod heads;
mod in_rows;
mod kept_breaks;
mod left;
mod near;
mod open_rows;
mod removals;
mod row_ends;
mod row_order;
mod row_put;
mod row_removals;
mod run;
mod slot_order;
mod slots;
mod together;
mod under;
mod unordered;
mod written_keys;

pub use together::{Together, carry_together, carry_under};
