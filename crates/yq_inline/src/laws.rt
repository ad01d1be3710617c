//! Laws of inline nodes, each the contract of a function that does nothing.
ghost use Rattle.std.specs.Prelude.{◌≡◌, ◌∷◌, length, Bool, List, Option, Some, option_map, ℕ, ℤ};
ghost use Rattle.yq_core.{specs.Paths.Step, specs.declared.style.Place.Place, specs.Inline.{IsInline, IsInlineAt, inline_at}};
ghost use Rattle.yq_core.specs.Nodes.{IsFlowNode, FlowNode, node_text};
ghost use Rattle.yq_core.specs.Entries.{EntryPieces, IsEntryInText, placed_entry_at, entry_pieces_at, locate_entry, pieces_text};
ghost use Rattle.yq_core.{specs.Places.{Placed, locate}, specs.Trees.{placed_tree, tree_of}, specs.OneReading.HasOneReading};
ghost use Rattle.yq_inline.specs.NodesWithin.{IsNodeWithin};

/// What is read as an inline node is one, each inline node is read, and a text begins with one at most.
pub fn one_inline()
    ensures takes { (place : Place) (n : ℤ) (depth at : ℕ) (text : List ℕ) (p : Placed) →
        inline_at place n depth at text ≡ Some p → IsInlineAt place n depth at text p }
    ensures again { (place : Place) (n : ℤ) (depth at : ℕ) (text : List ℕ) (p : Placed) →
        IsInlineAt place n depth at text p → inline_at place n depth at text ≡ Some p }
    ensures one { (place : Place) (n : ℤ) (depth : ℕ) →
        HasOneReading node_text (IsInline place n depth) }
{}

/// The tree of an inline node with its places is that of its pieces.
#[tactic(auto, using(yq_core::proofs::TreeLaws::node_tree))]
pub fn one_tree()
    ensures { (total : ℕ) (node : FlowNode) (rest : List ℕ) →
        placed_tree (locate total node rest) ≡ tree_of node }
{}

/// Each item and entry to which a path leads is in the text of the node where its places say, and
/// its node is an inline node there, in which one collection less may be nested for each step.
pub fn entry_places()
    ensures places { (total : ℕ) (steps : List Step) (x : EntryPieces) →
        placed_entry_at steps (locate_entry total x) ≡
        option_map (locate_entry total) (entry_pieces_at steps x) }
    ensures text { (steps : List Step) (x y : EntryPieces) → entry_pieces_at steps x ≡ Some y →
        IsEntryInText (pieces_text x) y }
    ensures node { (flow : Bool) (spaces : Option ℕ) (d : ℕ) (s : Step) (ss : List Step)
        (x y : EntryPieces) → IsFlowNode flow spaces d x.node x.rest →
        entry_pieces_at (s ∷ ss) x ≡ Some y →
        IsNodeWithin d (length (s ∷ ss)) y }
{}
