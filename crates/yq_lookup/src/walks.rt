//! The rows of documents among those of a text, with what is known of them, lines of them at paths, and how deep their collections are.
ghost use Rattle.std.specs.Prelude.{◌≡◌, if◌then◌else◌, IfSome, option_map};
ghost use Rattle.yq_documents.{specs.LinesInRows.{document_row, row_line_at}, specs.Reading.cut_of};
ghost use Rattle.yq_lookup.{specs.Knowledge.AreSearches, specs.PathLines.IsLineOf};
ghost use Rattle.yq_outline.specs.RowWalk.{stretch_view};
ghost use Rattle.yq_places.{specs.RowLineReading.position_in, specs.Steps.document_steps};
ghost use Rattle.yq_row_table.specs.View.{rows_view};
ghost use Rattle.yq_row_walk.specs.Walk.{IsWalk, walked_rows};
ghost use Rattle.yq_places.specs.RowWalk as spec;

use crate::cut_text::CutText;
use crate::knowledge::StepSearches;
use crate::known_document::part_from;
use yq_documents::{Path, rows_to};
use yq_outline::{Position, Stretch};
use yq_places::{first_step, search_step};
use yq_row_walk::{Walk, line_at};

impl<'t> CutText<'_, 't> {
    /// Where the rows of document `doc`, counted from 0, begin and end, if there is one.
    #[inline(always)]
    pub(crate) fn stretch(&self, doc: usize) -> Option<Stretch>
        ensures { option_map stretch_view result ≡ spec.document_row_range doc (cut_of self.now) }
    {
        let rows = self.rows();
        if let Some(known) = self.rows_known(doc) {
            return Some(known);
        }
        let part = part_from(rows, self.documents(), doc)?;
        Some(Stretch {
            first: rows_to(rows, part),
            end: rows.part(part).rows,
        })
    }

    /// The rows of document `doc`, counted from 0, if there is one, with what is known of them.
    #[inline(always)]
    pub fn walk(&self, doc: usize) -> Option<Walk<'_, 't>>
        ensures place { option_map walked_rows result ≡ spec.document_row_range doc (cut_of self.now) }
        ensures cut { IfSome result (λ w. spec.HasCut self.now w.rows.now) }
        ensures walk { IfSome result IsWalk }
    {
        let document = self.stretch(doc)?;
        Some(Walk {
            rows: self.rows(),
            document,
            known: self.known(),
            line: self.line(),
            above: self.above(),
        })
    }

    /// The line of the entry or item at a path, if one of a row is.
    pub fn row_line(&self, path: &Path) -> Option<Position>
        ensures { result ≡
            option_map (position_in (document_row path.now.doc (cut_of self.now)))
            (row_line_at path.now (cut_of self.now)) }
    {
        let walk = self.walk(path.doc)?;
        line_at(&walk, &path.steps)
    }

    /// The same, where the line may be known.
    pub fn line_from(&self, path: &Path, known: Option<Position>) -> Option<Position>
        requires { IfSome known (IsLineOf path.now (cut_of self.now)) }
        ensures { result ≡
            option_map (position_in (document_row path.now.doc (cut_of self.now)))
            (row_line_at path.now (cut_of self.now)) }
    {
        match known {
            Some(at) => Some(at),
            None => self.row_line(path),
        }
    }

    /// By how many columns the sequences, or mappings, of document `doc`, counted from 0, are deeper than
    /// their keys, as the first one that does; 2 where there is none.
    pub fn step(&self, doc: usize, dashes: bool) -> usize
        ensures { result ≡ (if dashes then (document_steps doc (cut_of self.now)).sequence
            else (document_steps doc (cut_of self.now)).mapping) }
    {
        let Some(walk) = self.walk(doc) else {
            return 2;
        };
        first_step(&walk, self.steps().of(dashes), dashes)
    }

    /// How far steps were searched.
    pub(crate) fn steps(&self) -> StepSearches
        ensures { AreSearches (rows_view (cut_of self.now)).rows result }
    {
        self.steps
    }

    /// From now on steps were searched so far.
    pub(crate) fn put_steps(&mut self, steps: StepSearches)
        requires { AreSearches (rows_view (cut_of self.old)).rows steps }
        ensures { self.new ≡ self.old }
    {
        self.steps = steps;
    }

    /// How far steps are searched once those of document `doc` were, up to the last row that is known.
    fn steps_to(&self, doc: usize) -> StepSearches
        ensures { AreSearches (rows_view (cut_of self.now)).rows result }
    {
        let Some(walk) = self.walk(doc) else {
            return self.steps();
        };
        let steps = self.steps();
        let upto = walk.known.last().map_or(0, |item| item.row);
        StepSearches {
            sequences: Some(search_step(&walk, steps.of(true), true, upto)),
            mappings: Some(search_step(&walk, steps.of(false), false, upto)),
        }
    }

    /// From now on steps of document `doc`, counted from 0, were searched up to the last row that is known on
    /// the way of a path: each search goes on from there.
    pub fn search_steps(&mut self, doc: usize)
        ensures { self.new ≡ self.old }
    {
        let steps = self.steps_to(doc);
        self.put_steps(steps);
    }
}
