//! Laws on lines exchanged, for the crates above.
ghost use Rattle.yq_edit_rules.{specs.After.EndIsChange, specs.Changed.{DocumentChanged, DocumentPut, LeadIsFirst, PartIsThere}};
ghost use Rattle.yq_edit_rules.specs.Conditions.{AnchorsStay, BoundChanged, BoundStays, DepthChanged, LinesAmong, NamesAround};
ghost use Rattle.yq_edit_rules.specs.Conditions.{UniqueChanged};
ghost use Rattle.yq_edit_rules.specs.Edited.{LinesAreThere, LeadIsAbove, LineExchanged, LineRelabelled, LinesAppended, LinesExchanged};
ghost use Rattle.yq_edit_rules.specs.Edited.{LinesRemoved, OldIsEven, OldIsSound, RootHasLead};
ghost use Rattle.yq_edit_rules.specs.BlockChanges.{EntryAppended, EntryRelabelled, EntryRemoved, FirstDropped, FirstRemoved, NodeReplaced};
ghost use Rattle.yq_edit_rules.{specs.BlockChanges.RootReplaced, specs.Moved.{DashesFirst, FirstEmptied, FirstMoved}};
ghost use Rattle.yq_edit_rules.specs.SoundRoots.{AppendKeeps, RelabelKeeps, RemoveKeeps, ReplaceKeeps};
ghost use Rattle.yq_edit_rules.specs.Placed.{EntryPlaced, FoundIsEntry, LinePlaced, RowsInParts, SameParts};
ghost use Rattle.yq_edit_rules.specs.Siblings.{Appended, CollectionReplaced, LinesReplaced, Relabelled, Removed};

/// The lines of the node at a path exchanged.
pub fn lines_replaced()
    ensures { LinesReplaced }
{}

/// Items or entries exchanged, added, taken out and relabelled, at any path.
pub fn collection_changed()
    ensures replaced { CollectionReplaced }
    ensures appended { Appended }
    ensures removed { Removed }
    ensures relabelled { Relabelled }
{}

/// What is asked of a whole document holds where it holds of the changed part.
#[tactic(auto, using(crate::proofs::BoundLaws::bounds, crate::proofs::TreeLaws::unique_changed, crate::proofs::TreeLaws::depth_changed))]
pub fn conditions_changed()
    ensures stays { BoundStays }
    ensures around { NamesAround }
    ensures bound { BoundChanged }
    ensures unique { UniqueChanged }
    ensures nested { DepthChanged }
{}

/// A text with another part for one document reads as the same documents but for that one.
#[tactic(auto, using(crate::proofs::ChangedLaws::document_put, crate::proofs::ChangedLaws::part_is_there, crate::proofs::ChangedLaws::lead_is_first))]
pub fn document_changed()
    ensures put { DocumentPut }
    ensures part { PartIsThere }
    ensures read { DocumentChanged }
    ensures lead { LeadIsFirst }
{}

/// Lines and rows that are replaced by others leave anchors alone and keys fit.
pub fn rows_stay()
    ensures anchors { AnchorsStay }
    ensures among { LinesAmong }
{}

/// The lines without the first entry of a compact collection.
pub fn rows_moved()
    ensures dashes { DashesFirst }
    ensures moved { FirstMoved }
    ensures emptied { FirstEmptied }
{}

/// The operations leave a document's root as is asked.
#[tactic(auto, using(crate::proofs::SoundRootLaws::replace_keeps, crate::proofs::SoundRootLaws::append_keeps, crate::proofs::SoundRootLess::remove_keeps))]
pub fn operations_keep()
    ensures replaced { ReplaceKeeps }
    ensures appended { AppendKeeps }
    ensures removed { RemoveKeeps }
    ensures relabelled { RelabelKeeps }
{}

/// A text whose lines were exchanged reads as the same documents but for the node at a path.
pub fn text_changed()
    ensures line { LineExchanged }
    ensures lines { LinesExchanged }
    ensures appended { LinesAppended }
    ensures removed { LinesRemoved }
    ensures relabelled { LineRelabelled }
{}

/// What is known of a document before the change.
#[tactic(auto, using(crate::proofs::EditedLaws::old_is_sound, crate::proofs::EditedLaws::lines_are_there, crate::proofs::EditedLaws::old_is_even))]
pub fn document_known()
    ensures sound { OldIsSound }
    ensures even { OldIsEven }
    ensures there { LinesAreThere }
{}

/// Leads and first lines.
#[tactic(auto, using(crate::proofs::EditedLaws::lead_is_above, crate::proofs::EditedLaws::root_has_lead))]
pub fn leads()
    ensures above { LeadIsAbove }
    ensures root { RootHasLead }
{}

/// The operations on block nodes, each read as the documents that it makes.
pub fn operations_read()
    ensures replaced { NodeReplaced }
    ensures root { RootReplaced }
    ensures appended { EntryAppended }
    ensures removed { EntryRemoved }
    ensures first { FirstRemoved }
    ensures dropped { FirstDropped }
    ensures relabelled { EntryRelabelled }
{}

/// Where lines at a path are among the lines of rows.
#[tactic(auto, using(crate::proofs::PlacedLaws::places))]
pub fn lines_placed()
    ensures parts { SameParts }
    ensures rows { RowsInParts }
    ensures line { LinePlaced }
    ensures entry { EntryPlaced }
    ensures found { FoundIsEntry }
{}

/// A changed text, given as a tree with the lead that goes with it.
#[tactic(auto, using(crate::proofs::AfterLaws::end_is_change))]
pub fn tree_after()
    ensures { EndIsChange }
{}
