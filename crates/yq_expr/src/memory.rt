//! How much memory an update may take.

pub mod heavy;
pub mod modified;
pub mod path_weights;
pub mod weights;
