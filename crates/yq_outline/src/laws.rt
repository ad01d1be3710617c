//! Laws on the lines of block nodes, for the crates above.
ghost use Rattle.std.specs.Prelude.{◌≡◌, ℕ, Bool, List, [], ◌∷◌, ◌++◌};
ghost use Rattle.yq_core.{specs.BlockRepair.{AreGap, repair}, specs.Tree.Node};
ghost use Rattle.yq_outline.{specs.Comments.last_comments, specs.Outline.{Line, IsLocatedAt}, specs.Grammar.IsNodeOutline};
ghost use Rattle.yq_outline.{specs.Laws.NodeExchanged, specs.ShapedLines.{ShapedByLines, ShapedIsTree}};

/// Lines mean one node at most.
pub fn one_node()
    ensures { (lines : List Line) (a b : Node) (m n : ℕ) → IsLocatedAt lines a m → IsLocatedAt lines b n →
        a ≡ b }
{}

/// What lines mean is what the rules of block nodes give them (YAML 1.2.2, 8.2).
#[tactic(auto, using(crate::proofs::ByRules::rules_from, crate::proofs::ByRules::rules_give))]
pub fn rules()
    ensures sound { (n : ℕ) (lines : List Line) (node : Node) → IsLocatedAt lines node n → (l : Line)
        (ls : List Line) → lines ≡ l ∷ ls → IsNodeOutline n lines node }
    ensures complete { (n : ℕ) (lines : List Line) (node : Node) → IsNodeOutline n lines node →
        IsLocatedAt lines node n }
{}

/// Lines mean a node with items and keys where they belong, if what is written on them is such a
/// node; and such a node, in which no mapping has a key twice, is a tree.
#[tactic(auto, using(crate::proofs::ShapeLaws::shaped_by_lines, crate::proofs::ShapeLaws::shaped_is_tree))]
pub fn lines_shaped()
    ensures shaped { ShapedByLines }
    ensures tree { ShapedIsTree }
{}

/// Lines exchanged at a path change the node at that path alone.
pub fn exchanged()
    ensures { NodeExchanged }
{}

/// The comment lines that end lines, in front of which others are that end in none, are those of
/// the lines alone; repair leaves them.
#[tactic(auto, using(crate::proofs::HeadLaws::comments_after, crate::proofs::HeadLaws::head_repaired))]
pub fn heads_joined()
    ensures after { (ls ms : List (List ℕ)) → last_comments ls ≡ [] →
        last_comments (ls ++ ms) ≡ last_comments ms }
    ensures repaired { (keep : Bool) (m column : ℕ) (ls : List (List ℕ)) → AreGap ls →
        last_comments (repair keep m column ls) ≡ last_comments ls }
{}
