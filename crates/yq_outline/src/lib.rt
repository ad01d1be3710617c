//! Block nodes of YAML by the indentation of their lines: what lines mean, and which conditions they must
//! meet. The lines of rows, their positions, and the types for walks among them.
#![tactic(auto)]

mod laws;
mod line;
mod line_position;

pub use laws::{exchanged, heads_joined, lines_shaped, one_node, rules};
pub use line::{Head, ScalarContent};
pub use line_position::{KnownItem, Next, Position, Stretch};
