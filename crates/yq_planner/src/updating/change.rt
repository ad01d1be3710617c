//! Changes: what an update changes at the nodes of documents.
ghost use Rattle.std.specs.Prelude.{◌≡◌, map};
ghost use Rattle.yq_planner.specs.ChangeView.{changed_of, changes_under};

use std::alloc::Global;
use yq_core::{Step, Value};
use yq_semantics::CommentPlace;

/// What a collection gets.
#[derive(Drop)]
pub enum Addition {
    /// One item more, or one entry more with that key.
    Appends(Option<String>, Value),
    /// A new value for a key that it has.
    Overwrites(String, Value),
}

/// What is changed at a node.
#[derive(Drop)]
pub enum Change {
    /// It is replaced by a value.
    Replaces(Value),
    /// It gets these, one after the other.
    Adds(Vec<Addition>),
    /// It is removed.
    Removes,
    /// The text of a comment of its entry or item is set: no text takes it away.
    SetsComment(CommentPlace, String),
}

/// A change, and the steps from the root to its node.
#[derive(Drop)]
pub struct PlacedChange {
    pub path: Vec<Step>,
    pub change: Change,
}

/// Changes of a document at and below a node.
#[derive(Drop)]
pub struct ChangesUnder {
    /// The steps to the node.
    pub front: Vec<Step>,
    /// The path of each begins there.
    pub changes: Vec<PlacedChange>,
}

impl ChangesUnder {
    /// Changes whose paths begin at the root.
    #[tactic(auto, using(yq_semantics::proofs::UnderLaws::same_changes))]
    pub fn of_root(alloc: Global, changes: Vec<PlacedChange>) -> ChangesUnder
        ensures changes { changes_under result ≡ map changed_of changes.items }
        ensures same { result.changes.items ≡ changes.items }
    {
        ChangesUnder {
            front: Vec::new(alloc),
            changes,
        }
    }
}
