//! Operations: what a program does to documents, one node at a time.

use yq_core::Value;
use yq_documents::Path;

/// An operation on documents. The keys of a mapping in its value differ.
#[derive(Debug, Drop)]
pub enum Op {
    /// The node at the path is replaced by a value. Its anchor and the comments
    /// of its entry or item stay.
    Replace(Path, Value),
    /// A collection gets one item more, or one entry more with that key.
    Append(Path, Option<String>, Value),
    /// An entry or item goes.
    Remove(Path),
    /// The comment after an entry or item, on its line, is set: no text takes
    /// it away.
    LineComment(Path, String),
    /// The comment on the lines before an entry or item is set, its lines
    /// parted by LF: no text takes it away.
    HeadComment(Path, String),
}
