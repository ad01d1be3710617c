//! Nodes of documents that were read: kinds, texts, comments, and where steps lead.
#![tactic(auto)]

mod nodes;

pub use nodes::children::Children;
pub use nodes::node::{Node, NodeKind};
