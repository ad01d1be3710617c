//! Plans: what an update changes, place by place, and which operations carry it out.

pub mod at_node;
pub mod at_places;
pub mod changes;
pub mod document;
pub mod effect;
pub mod fixed;
pub mod many_keys;
pub mod parts;
pub mod placed;
pub mod planning;
pub mod put;
pub mod steps;
