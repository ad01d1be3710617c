//! Nodes, their items and entries, and the comments next to them.

pub mod body;
pub mod children;
pub mod comments;
pub mod count;
pub mod flow;
pub mod heads;
pub mod lines;
pub mod node;
pub mod node_lines;
pub mod steps;
pub mod under;
