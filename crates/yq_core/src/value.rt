//! Values: what a literal says, and what is copied from a document.

use crate::Scalar;

/// A value: a node without anchors and comments. The keys of a mapping differ.
#[derive(Debug, Drop)]
pub enum Value {
    Scalar(Scalar),
    List(Vec<Value>),
    /// The entries in order.
    Map(Vec<(String, Value)>),
}
