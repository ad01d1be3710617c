//! Laws on what operations exchange.
ghost use Rattle.yq_edit_rules.{specs.PlacementLaws.HeldSpells, specs.Local.LocalTouches};
ghost use Rattle.yq_edit_rules.specs.RowChanges.{HeadCommentsChangeRows, LineCommentsChangeRows, RowEdits};
ghost use Rattle.yq_edit_laws.specs.TouchedRanges.{EditsAreNear, NearAreTouched};
ghost use Rattle.yq_edit_rules.specs.EditLaws as laws;

/// An equal scalar leaves all bytes.
pub fn equal_scalars_stay()
    ensures { laws.EqualScalarsStay }
{}

/// Comments are set.
pub fn comments_are_put()
    ensures line { laws.LineCommentIsPut }
    ensures head { laws.HeadCommentIsPut }
{}

/// One more item or entry ends up at the end of a block collection.
pub fn more_is_put()
    ensures { laws.MoreIsPut }
{}

/// One of several items or entries of a block collection goes.
pub fn one_is_removed()
    ensures { laws.OneIsRemoved }
{}

/// What a key or dash holds spells the text, in pieces of a text.
pub fn held_spells()
    ensures { HeldSpells }
{}

/// The items that local segments exchange are given by where the first one ends and the last one
/// begins.
pub fn local_segments_touch()
    ensures { LocalTouches }
{}

/// Each item that segments write is touched by a range of what they put, where that is near.
pub fn near_items_are_touched()
    ensures { NearAreTouched }
{}

/// What each operation puts is near.
pub fn edits_are_near()
    ensures { EditsAreNear }
{}

/// What operations exchange that change one row.
pub fn row_edits_are()
    ensures { RowEdits }
{}

/// A line comment changes one row, and leaves its shape.
pub fn line_comments_change_rows()
    ensures { LineCommentsChangeRows }
{}

/// A head comment changes one row, and leaves its shape.
pub fn head_comments_change_rows()
    ensures { HeadCommentsChangeRows }
{}
