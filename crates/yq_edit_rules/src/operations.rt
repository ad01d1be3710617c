//! Whole operations, by the rows that they exchange.
ghost use Rattle.yq_edit_rules.{specs.Appends.BlockAppended, specs.Columns.{BlockIsDeeper, ClosedIsLessDeep, NextAllowed, NextStays}};
ghost use Rattle.yq_edit_rules.{specs.Ends.EndAppended, specs.Heads.HeadCommented};
ghost use Rattle.yq_edit_rules.specs.Contents.{LowerContentReplaced, RootContentReplaced};
ghost use Rattle.yq_edit_rules.specs.DocumentRows.{DocumentKnown, DocumentSpliced, PartNumbered, RowsPut};
ghost use Rattle.yq_edit_rules.{specs.LineComments.LineCommented, specs.PathRows.{PathHeadCommented, PathIsEntry, PathLineCommented}};
ghost use Rattle.yq_edit_rules.{specs.RowComments.{BlockCommented, ContentCommented, RowReplaces}, specs.EntryRows.EntryRows};
ghost use Rattle.yq_edit_rules.specs.FlowRows.{FlowEdited, FlowFound, FlowIsThere, RowTexts};
ghost use Rattle.yq_edit_rules.specs.Replaces.{DocumentReplaced, DocumentRooted, FirstRowDropped, FirstRowMoved, NodeRowsReplaced};
ghost use Rattle.yq_edit_rules.specs.Replaces.{RootRowsReplaced};
ghost use Rattle.yq_edit_rules.specs.LineRows.{EntriesApart, EvenClosed, LinesApart, RowBegins, RowLineSplits};

/// Rows of a document exchanged, by the document's number among the parts.
#[tactic(auto, using(crate::proofs::PartLaws::part_numbered, crate::proofs::PartLaws::rows_put, crate::proofs::PartLaws::document_spliced))]
pub fn rows_put()
    ensures numbered { PartNumbered }
    ensures put { RowsPut }
    ensures known { DocumentKnown }
    ensures spliced { DocumentSpliced }
{}

/// Lines by their rows.
#[tactic(auto, using(crate::proofs::LineLaws::row_line_splits, crate::proofs::ApartLaws::row_begins, crate::proofs::ApartLaws::even_closed))]
pub fn lines_in_rows()
    ensures equal_room { RowLineSplits }
    ensures begins { RowBegins }
    ensures lines { LinesApart }
    ensures entries { EntriesApart }
    ensures closed { EvenClosed }
{}

/// Comments of an item or entry.
pub fn commented()
    ensures line { LineCommented }
    ensures head { HeadCommented }
{}

/// Where rows may be, by the levels of lines.
#[tactic(auto, using(crate::proofs::ColumnLaws::columns))]
pub fn rows_by_levels()
    ensures next { NextAllowed }
    ensures stays { NextStays }
    ensures block { BlockIsDeeper }
    ensures less { ClosedIsLessDeep }
{}

/// One item or entry more.
pub fn appended()
    ensures inside { BlockAppended }
    ensures last { EndAppended }
{}

/// The row of a path, and comments there.
pub fn at_paths()
    ensures entry { PathIsEntry }
    ensures line { PathLineCommented }
    ensures head { PathHeadCommented }
{}

/// The rows of a collection's items or entries, and of one of them.
#[tactic(auto, using(crate::proofs::RowsLaws::entry_rows))]
pub fn rows_of_entries()
    ensures { EntryRows }
{}

/// Rows that are replaced by others whose text begins like theirs, and a node at a path that does.
pub fn replaced()
    ensures cut { DocumentReplaced }
    ensures node { NodeRowsReplaced }
{}

/// Another root for a document, also where it had none written.
pub fn root_replaced()
    ensures cut { DocumentRooted }
    ensures replaced { RootRowsReplaced }
{}

/// The first item or entry of a compact collection less: the next one's row comes after the dash,
/// or below it.
pub fn first_removed()
    ensures moved { FirstRowMoved }
    ensures dropped { FirstRowDropped }
{}

/// One row in the place of another one; a line comment that is in a row's content, as that of a
/// block scalar, which has it in its header.
pub fn row_commented()
    ensures row { RowReplaces }
    ensures content { ContentCommented }
    ensures block { BlockCommented }
{}

/// What is written in a row that is alone on its line is replaced by a value: under a key or dash, or
/// as a root.
pub fn content_replaced()
    ensures lower { LowerContentReplaced }
    ensures root { RootContentReplaced }
{}

/// A flow collection at a path, and its items or entries changed.
#[tactic(auto, using(crate::proofs::FlowRowLaws::flow_is_there, crate::proofs::FlowPathLaws::flow_found, crate::proofs::FlowPathLaws::row_texts))]
pub fn flow_changed()
    ensures found { FlowFound }
    ensures texts { RowTexts }
    ensures is_located { FlowIsThere }
    ensures edited { FlowEdited }
{}
