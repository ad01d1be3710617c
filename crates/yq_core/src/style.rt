//! How a scalar is written, and where.

/// How a scalar is written (YAML 1.2.2, chapters 7.3 and 8.1).
#[derive(Clone, Copy, Debug)]
pub enum Style {
    /// Without quotes, as `text`.
    Plain,
    /// In single quotes, as `'text'`.
    Single,
    /// In double quotes, as `"text"`.
    Double,
    /// On lines below `|`.
    Literal,
    /// On lines below `>`.
    Folded,
}

/// Where a scalar is.
#[derive(Clone, Copy)]
pub enum Place {
    /// As a node outside flow collections.
    Block,
    /// As a node in a flow collection.
    Flow,
    /// As a key of a block mapping.
    BlockKey,
    /// As a key of a flow mapping.
    FlowKey,
}
