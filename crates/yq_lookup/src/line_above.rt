//! The line to which the steps before the last one of a path lead: walks along paths next to it go on from there.
ghost use Rattle.std.specs.Prelude.{◌≡◌, ◌+◌, ◌<◌, length, IfOk, IfSome, IsTrue};
ghost use Rattle.yq_documents.specs.Reading.{cut_of};
ghost use Rattle.yq_row_table.{specs.RowStarts.row_start, specs.Rows.Cut, specs.View.{RowsView, rows_view}};
ghost use Rattle.yq_row_walk.specs.Walk.{IsLineAbove};
ghost use Rattle.yq_outline.specs.RowWalk.{HasDocument};
ghost use Rattle.yq_lookup.specs.Knowledge.{IsLineKept, IsFrontLine, StaysFront};

use crate::cut_text::CutText;
use std::alloc::{AllocError, Global};
use std::mem;
use yq_core::{Step, copied_steps};
use yq_outline::{Position, Stretch};
use yq_row_table::Rows;
use yq_row_walk::KnownLine;

/// A line to which steps of a document lead.
#[derive(Drop)]
pub(crate) struct LineAbove {
    pub(crate) document: Stretch,
    pub(crate) steps: Vec<Step>,
    pub(crate) at: Position,
}

/// Whether a line is that one.
fn is_at(line: Option<Position>, at: Position) -> bool {
    match line {
        Some(line) => line.row == at.row && line.line == at.line,
        None => false,
    }
}

/// Whether the line that is kept is that one.
fn is_kept_at(kept: &Option<LineAbove>, at: Position) -> bool {
    match kept {
        Some(there) => is_at(Some(there.at), at),
        None => false,
    }
}

/// Whether as many steps lead to a line as to the one that is kept.
fn is_as_deep(kept: &Option<LineAbove>, line: KnownLine<'_>) -> bool {
    match kept {
        Some(there) => there.steps.len() == line.steps.len(),
        None => false,
    }
}

/// Whether the row after that of a line begins in front of so many bytes.
fn next_row_before(rows: &Rows<'_>, at: Position, front: usize) -> bool
    ensures within { IsTrue result → at.row + 1 < length rows.now.rows }
    ensures before { IsTrue result → row_start (at.row + 1) rows.now < front }
{
    let last = rows.len().saturating_sub(1);
    at.row < last && rows.start(at.row + 1) < front
}

/// A line that is kept, in each text that keeps so many bytes in front: where its document is this one, and the row
/// after its own begins in front of them.
fn line_before(
    rows: &Rows<'_>,
    document: Stretch,
    kept: LineAbove,
    front: usize,
) -> Option<LineAbove>
    requires document { HasDocument rows.now document }
    requires kept { IsLineKept rows.now kept }
    ensures { IfSome result (λ k. (c : Cut) → rows.now ≡ rows_view c → StaysFront front c k) }
{
    if kept.document.first != document.first || kept.document.end != document.end {
        return None;
    }
    if !next_row_before(rows, kept.at, front) {
        return None;
    }
    Some(kept)
}

/// A line to which steps lead, wherever its document ends: it ends with a part, if the line comes before that.
pub(crate) fn line_in_part(
    rows: &Rows<'_>,
    line: Option<LineAbove>,
    part: usize,
) -> Option<LineAbove>
    requires { IfSome line (IsFrontLine rows.now) }
    ensures { IfSome result (IsLineKept rows.now) }
{
    let LineAbove {
        document,
        steps,
        at,
    } = line?;
    if part >= rows.parts() {
        return None;
    }
    let end = rows.part(part).rows;
    if at.row >= end {
        return None;
    }
    Some(LineAbove {
        document: Stretch {
            first: document.first,
            end,
        },
        steps,
        at,
    })
}

impl LineAbove {
    /// A line with its own steps.
    fn of(alloc: Global, line: KnownLine<'_>) -> Result<LineAbove, AllocError>
        ensures { (s : RowsView) → IsLineAbove s line.entry → IfOk result (IsLineKept s) }
    {
        Ok(LineAbove {
            document: line.document,
            steps: copied_steps(alloc, line.steps)?,
            at: line.at,
        })
    }

    /// The line, which is known by its steps.
    fn line(&self) -> KnownLine<'_>
        ensures { (s : RowsView) → IsLineKept s self.now → IsLineAbove s result }
    {
        KnownLine {
            document: self.document,
            steps: self.steps.as_slice(),
            at: self.at,
        }
    }
}

impl CutText<'_, '_> {
    /// The line that is kept.
    fn kept(&self) -> Option<KnownLine<'_>>
        ensures { IfSome result (IsLineAbove (rows_view (cut_of self.now))) }
    {
        match &self.above {
            Some(above) => Some(above.line()),
            None => None,
        }
    }

    /// The line from which walks along other paths go on, if one is known: that on the way of the last path, or the
    /// one that is kept.
    pub(crate) fn above(&self) -> Option<KnownLine<'_>>
        ensures { IfSome result (IsLineAbove (rows_view (cut_of self.now))) }
    {
        match self.line_above() {
            Some(line) => Some(line),
            None => self.kept(),
        }
    }

    /// From now on walks along other paths go on from this line.
    fn put_above(&mut self, above: LineAbove)
        requires { IsLineKept (rows_view (cut_of self.old)) above }
        ensures { self.new ≡ self.old }
    {
        self.above = Some(above);
    }

    /// The same, unless it is kept already. It isn't kept where memory runs out.
    fn keep_line(&mut self, alloc: Global, line: KnownLine<'_>)
        requires { IsLineAbove (rows_view (cut_of self.old)) line }
        ensures { self.new ≡ self.old }
    {
        if is_kept_at(&self.above, line.at) {
            return;
        }
        if let Ok(kept) = LineAbove::of(alloc, line) {
            self.put_above(kept);
        }
    }

    /// From now on walks go on from the line to which the steps before the last one of a path lead, if those of
    /// the path before it led there too, or the line that is kept is as deep.
    pub(crate) fn keep_above(&mut self, alloc: Global, above: Option<KnownLine<'_>>)
        requires { IfSome above (IsLineAbove (rows_view (cut_of self.old))) }
        ensures { self.new ≡ self.old }
    {
        let Some(line) = above else {
            return;
        };
        if !is_at(self.parent, line.at) && !is_as_deep(&self.above, line) {
            self.parent = Some(line.at);
            return;
        }
        self.keep_line(alloc, line);
    }

    /// The same of the last path, but only if those of the path before it led there too, and the row after the line
    /// begins in front of so many bytes: else it isn't known in a text that keeps these.
    fn keep_parent(&mut self, alloc: Global, front: usize)
        ensures { self.new ≡ self.old }
    {
        let Some(line) = self.line_above() else {
            return;
        };
        if !is_at(self.parent, line.at) {
            self.parent = Some(line.at);
            return;
        }
        if !is_kept_at(&self.above, line.at) && next_row_before(self.rows, line.at, front) {
            self.keep_line(alloc, line);
        }
    }

    /// Takes the line that is kept.
    fn take_above(&mut self) -> Option<LineAbove>
        ensures same { self.new ≡ self.old }
        ensures kept { IfSome result (IsLineKept (rows_view (cut_of self.old))) }
    {
        mem::replace(&mut self.above, None)
    }

    /// Takes the line above the last path, if it is known in each text that keeps so many bytes in front.
    pub(crate) fn above_before(&mut self, alloc: Global, front: usize) -> Option<LineAbove>
        ensures same { self.new ≡ self.old }
        ensures still { IfSome result (StaysFront front (cut_of self.old)) }
    {
        self.keep_parent(alloc, front);
        let kept = self.take_above()?;
        let (_, document) = self.last_document()?;
        line_before(self.rows(), document, kept, front)
    }
}
