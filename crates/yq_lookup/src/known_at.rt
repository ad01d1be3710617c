//! The items on the way of a path from which later walks may go on, and the row of its key or dash.
ghost use Rattle.std.specs.Prelude.{◌≡◌, IfSome, option_map};
ghost use Rattle.yq_row_table.specs.View.{rows_view};
ghost use Rattle.yq_documents.{specs.Located.steps_of, specs.Reading.cut_of};
ghost use Rattle.yq_outline.specs.RowWalk.{AreKnown};
ghost use Rattle.yq_places.specs.RowWalk.{StayKnown};
ghost use Rattle.yq_row_walk.specs.Walk.{IsKnownLine, IsLineAbove};
ghost use Rattle.yq_lookup.{specs.Knowledge.{KnowledgeStays, SearchesStay}, specs.KnownDocuments.DocumentsStay, specs.PathLines.IsLineOf};
ghost use Rattle.yq_places.specs.PlacementViews as views;

use crate::cut_text::CutText;
use crate::knowledge::{Knowledge, StepSearches, searches_before};
use crate::known_document::{KnownDocuments, document_before};
use std::alloc::Global;
use yq_documents::Path;
use yq_outline::{KnownItem, Position};
use yq_places::{HeldRow, Way, keep_before_offset, known_along, known_end, put_item, row_of_last};
use yq_row_walk::{KnownLine, Walk};

/// Where a line is, if it is known.
#[inline(always)]
fn position_of(line: Option<KnownLine<'_>>) -> Option<Position>
    ensures { result ≡ option_map (λ k. k.at) line.entry }
{
    match line {
        Some(line) => Some(line.at),
        None => None,
    }
}

impl<'d, 't> CutText<'d, 't> {
    /// Puts the items on the way of a path in the place of the items that are known, and reports what is on its way.
    #[inline(always)]
    fn way_along<'p>(&self, known: &mut Vec<KnownItem>, path: &'p Path) -> Way<'p>
        requires { AreKnown (rows_view (cut_of self.now)).rows known.old.items }
        ensures known { AreKnown (rows_view (cut_of self.now)).rows known.new.items }
        ensures line { IfSome result.line (IsKnownLine (rows_view (cut_of self.now))) }
        ensures above { IfSome result.above (IsLineAbove (rows_view (cut_of self.now))) }
        ensures at { IfSome result.line (λ k. IsLineOf path.now (cut_of self.now) k.at) }
    {
        match self.walk(path.doc) {
            Some(walk) => known_along(&walk, known, &path.steps),
            None => Way::none(),
        }
    }

    /// The same, and puts the last row of the collection at the path after the items. It is looked for from an
    /// item of that on that is known.
    fn end_along(&self, known: &mut Vec<KnownItem>, path: &'d Path) -> Way<'d>
        requires { AreKnown (rows_view (cut_of self.now)).rows known.old.items }
        ensures known { AreKnown (rows_view (cut_of self.now)).rows known.new.items }
        ensures line { IfSome result.line (IsKnownLine (rows_view (cut_of self.now))) }
        ensures above { IfSome result.above (IsLineAbove (rows_view (cut_of self.now))) }
    {
        let Some(walk) = self.walk(path.doc) else {
            return Way::none();
        };
        let way = known_along(&walk, known, &path.steps);
        let here = Walk {
            known: known.as_slice(),
            line: way.line.as_ref(),
            ..walk
        };
        if let Some(end) = known_end(&here, &path.steps) {
            let _ = put_item(known, way.items, end);
        }
        way
    }

    /// From now on the document of a path is known, and of each collection on its way the item or entry:
    /// walks along the path go on from there. Reports the line of the item or entry at the path.
    #[inline(always)]
    pub fn go_along(&mut self, alloc: Global, path: &Path) -> Option<Position>
        ensures same { self.new ≡ self.old }
        ensures line { IfSome result (IsLineOf path.now (cut_of self.old)) }
    {
        self.to_document(path.doc);
        let mut known = self.take_items(alloc);
        let way = self.way_along(&mut known, path);
        self.put_items(known, Way::none());
        self.keep_above(alloc, way.above);
        position_of(way.line)
    }

    /// The same, and the line to which the path leads is known as well, with that above it.
    #[inline(always)]
    pub fn go_to_line(&mut self, alloc: Global, path: &'d Path)
        ensures { self.new ≡ self.old }
    {
        self.to_document(path.doc);
        let mut known = self.take_items(alloc);
        let way = self.way_along(&mut known, path);
        self.put_items(known, way);
    }

    /// The same, and the end of the collection at the path is known as well.
    pub fn go_to_end(&mut self, alloc: Global, path: &'d Path)
        ensures { self.new ≡ self.old }
    {
        self.to_document(path.doc);
        let mut known = self.take_items(alloc);
        let way = self.end_along(&mut known, path);
        self.put_items(known, way);
    }

    /// The key or dash of the item or entry at a path with its row, where the row ends in its line. From
    /// then on it is known what is on the way of the path.
    pub fn to_held_row(&mut self, alloc: Global, path: &Path) -> Option<HeldRow<'t>>
        ensures same { self.new ≡ self.old }
        ensures row { IfSome result (views.IsHeldRow path.now.doc (steps_of path.now)
            (cut_of self.old)) }
    {
        self.to_document(path.doc);
        let mut known = self.take_items(alloc);
        let (row, above) = self.row_along(&mut known, path);
        self.put_items(known, Way::none());
        self.keep_above(alloc, above);
        row
    }

    /// The same, where items are known, and those on the way of the path are put in their place; with the line to
    /// which the steps before its last one lead.
    #[inline(always)]
    fn row_along<'p>(
        &self,
        known: &mut Vec<KnownItem>,
        path: &'p Path,
    ) -> (Option<HeldRow<'t>>, Option<KnownLine<'p>>)
        requires { AreKnown (rows_view (cut_of self.now)).rows known.old.items }
        ensures known { AreKnown (rows_view (cut_of self.now)).rows known.new.items }
        ensures row { IfSome result.0 (views.IsHeldRow path.now.doc (steps_of path.now)
            (cut_of self.now)) }
        ensures above { IfSome result.1 (IsLineAbove (rows_view (cut_of self.now))) }
    {
        let Some(walk) = self.walk(path.doc) else {
            return (None, None);
        };
        let way = known_along(&walk, known, &path.steps);
        let Some(line) = way.line else {
            return (None, way.above);
        };
        (row_of_last(walk.rows, line.at), way.above)
    }

    /// Takes what is known, as far as walks and searches may go on from there in each text that keeps so many
    /// bytes in front; of the next item that of the one before it.
    #[inline(always)]
    pub fn known_before(&mut self, alloc: Global, front: usize) -> Knowledge
        ensures same { self.new ≡ self.old }
        ensures known { KnowledgeStays front (cut_of self.old) result }
    {
        let documents = self.documents_before(front);
        let steps = self.steps_before(front);
        let part = self.last_part();
        let above = self.above_before(alloc, front);
        let mut items = self.take_items(alloc);
        self.items_before_offset(&mut items, front);
        Knowledge {
            items,
            documents,
            steps,
            above,
            part,
            parent: self.parent,
        }
    }

    /// Leaves of items that are known those that stay known in each text that keeps so many bytes in front.
    #[inline(always)]
    fn items_before_offset(&self, known: &mut Vec<KnownItem>, front: usize)
        requires { AreKnown (rows_view (cut_of self.now)).rows known.old.items }
        ensures { StayKnown front (cut_of self.now) known.new.items }
    {
        keep_before_offset(self.rows(), known, front);
    }

    /// The documents that are known, as far as searches may go on from there in each text that keeps so many
    /// bytes in front.
    #[inline(always)]
    fn documents_before(&self, front: usize) -> KnownDocuments
        ensures { DocumentsStay front (cut_of self.now) result }
    {
        let rows = self.rows();
        let known = self.documents();
        KnownDocuments {
            last: document_before(rows, known.last, front),
            before: document_before(rows, known.before, front),
        }
    }

    /// How many parts come before that of the document that was looked for last, if that is known.
    fn last_part(&self) -> usize {
        match self.documents.last {
            Some(known) => known.part,
            None => usize::MAX,
        }
    }

    /// How far steps were searched in each text that keeps so many bytes in front.
    fn steps_before(&self, front: usize) -> StepSearches
        ensures { SearchesStay front (cut_of self.now) result }
    {
        searches_before(self.rows(), self.steps(), front)
    }
}
