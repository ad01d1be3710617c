//! Laws on edits of flow collections, and on what is where a node is.
ghost use Rattle.yq_edit_rules.specs.PlacementLaws.{EntriesOccur, RootsOccur};
ghost use Rattle.yq_edit_rules.specs.EditLaws.{FlowMoreIsPut, FlowPartIsRemoved, FlowValuesArePut, SoleIsRemoved, AppendHasEdit};
ghost use Rattle.yq_edit_laws.specs.Emptying.{SoleByEmptying};

/// What is exchanged in a flow collection carries out the operation.
pub fn flow_edits_carry_out()
    ensures put { FlowValuesArePut }
    ensures more { FlowMoreIsPut }
    ensures removed { FlowPartIsRemoved }
{}

/// An empty collection in the place of its own removes a sole item or entry.
pub fn emptying_removes()
    ensures sole { SoleIsRemoved }
    ensures emptying { SoleByEmptying }
{}

/// Where a node is, something is.
pub fn nodes_are_there()
    ensures roots { RootsOccur }
    ensures entries { EntriesOccur }
{}

/// A collection that takes one more item or entry has a place for it.
pub fn appends_have_edit()
    ensures { AppendHasEdit }
{}
