//! Laws of edits in flow collections, each the contract of a function that does nothing.
ghost use Rattle.std.specs.Prelude.{◌≡◌, Some, true};
ghost use Rattle.yq_core.{specs.Characters.pairs_returns, specs.Paths.{Step, changed_at, remove_child, within}, specs.Scalar.ScalarText};
ghost use Rattle.yq_core.{specs.Tree.key_label, specs.declared.style.Place.TheVariants.{Flow, Block}, specs.declared.style.Style.Style};
ghost use Rattle.yq_core.{specs.Collections.{CollAt, IsCollAt}, specs.Nodes.{Key, FlowNode, node_text, scalar}};
ghost use Rattle.yq_core.{specs.Trees.{key_content, scalar_node, tree_of}, specs.NodesWritten.{flow_key, flow_of, flow_text}};
ghost use Rattle.yq_flow_edits.{specs.FlowEdits.{FlowEdit, IsFlowEdited, put_value}, specs.Removals.removing};
ghost use Rattle.yq_flow_edits.{specs.Valued.{IsValueTree, Spells, SpellsScalar}, specs.FlowValues.SpellsInFlow};
ghost use Rattle.yq_flow_edits.specs.ItemsAt.{FitsAfterLast, FitsContent, FitsValue, IsAppended, IsItemAt, IsLabelIn, IsReplaced};
ghost use Rattle.yq_flow_edits.specs.ItemsAt.{IsWrittenOnLine, ItemAt, child_changed, item_changed, styled_node};
ghost use Rattle.yq_core.specs.Tree as tree;
ghost use Rattle.yq_core.specs.Written as scalars;

/// The content of an item or entry of a flow collection is replaced by another node, after its own
/// anchor.
pub fn replaced_in_flow()
    // To any node that may be put there.
    ensures node { (x : ItemAt) (m : FlowNode) → IsItemAt x → FitsContent m x →
        IsReplaced x m (child_changed x (put_value (tree_of m))) }
    // To a value, as it is written in flow style.
    ensures value { (x : ItemAt) (v : tree.Node) → IsItemAt x → FitsValue v x.coll →
        IsReplaced x (flow_of v) (item_changed x (put_value v)) }
    // To a scalar, in a style that can write it there.
    ensures scalar { (x : ItemAt) (v : ScalarText) (style : Style) →
        IsItemAt x → IsWrittenOnLine style Flow v →
        IsReplaced x (styled_node style v) (item_changed x (put_value (scalar_node v))) }
{}

/// A flow collection gets one more item or entry: after the last one, or right after the opening
/// bracket.
pub fn appended_in_flow()
    // Any item or entry that may be there.
    ensures item { (x : CollAt) (key : Key) (m : FlowNode) →
        IsCollAt x → FitsAfterLast key m x →
        IsAppended x key m (key_label (key_content key)) (tree_of m) }
    // A value, as it is written in flow style.
    ensures value { (x : CollAt) (label : tree.Label) (v : tree.Node) →
        IsCollAt x → IsLabelIn x label → FitsValue v x →
        IsAppended x (flow_key label.key) (flow_of v) label v }
{}

/// An item or entry that isn't the sole one is taken out of a flow collection, in a text in which an LF
/// comes after each CR.
pub fn removed_in_flow()
    ensures { (x : CollAt) (s : Step) (e : FlowEdit) → IsCollAt x → removing s x.coll ≡ Some e →
        pairs_returns (node_text x.node x.rest) ≡ true →
        IsFlowEdited x e (changed_at x.steps (within (remove_child s))) }
{}

/// What is written in flow style spells the tree that is written.
pub fn flow_spells()
    ensures { (v : tree.Node) → IsValueTree v → Spells v (flow_text v) }
{}

/// What is written for a scalar outside flow collections, in a style that can write it on one line,
/// spells it.
pub fn scalar_spells()
    ensures { (s : ScalarText) (style : Style) → IsWrittenOnLine style Block s →
        SpellsScalar s (scalars.written_scalar style s.text) }
{}

/// What is written for a scalar in a flow collection, in a style that can write it there, spells it
/// there.
pub fn scalar_spells_in_flow()
    ensures { (s : ScalarText) (style : Style) → IsWrittenOnLine style Flow s →
        SpellsInFlow s (scalars.written_scalar style s.text) }
{}
