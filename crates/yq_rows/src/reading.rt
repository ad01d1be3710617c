//! Rows, read one after the other.
ghost use Rattle.std.specs.Prelude.{◌≡◌, ◌≢◌, ◌<◌, ◌≤◌, ◌+◌, ◌++◌, ◌^◌, ◌||◌, length, true, IfErr, IfOk, OnOk};
ghost use Rattle.yq_core.{specs.Answers.{IsOfText, ReadsAs}, specs.declared.fault.FaultKind.TheVariants.NotUtf8};
ghost use Rattle.yq_row_table.{specs.Grammar.{unlimited, ends_part}, specs.Offsets.{Ends, AreRowsIn, IsCutIn}};
ghost use Rattle.yq_rows.specs.RowAnswers.{BeginsAtFront, ReadsMarked, may_be_at, GivesRow, GivesRows, KeepOthers, KnowsContent};
ghost use Rattle.yq_rows.specs.RowAnswers.{KnowsRowHead, MayBeWordRow, PlacesRows, row_at_front, with_other};
ghost use Rattle.yq_core.specs.Text;
ghost use Rattle.yq_row_table.specs.Reading as spec;

use crate::content::{Filling, find_tail, read_content};
use crate::gap::split_gap;
use crate::lengths::offsets_of;
use crate::limit::Limit;
use crate::marks::{Begin, is_entry, parent_of, read_begin};
use crate::naming::not_alone;
use crate::word_rows::find_row;
use std::alloc::AllocError;
use yq_core::fault_place::fault;
use yq_core::text::{is_marker, split_spaces};
use yq_core::{FaultKind, ReadError, ReadFault};
use yq_inline::Keys;
use yq_row_table::{Offsets, Other};

/// What is in front of a row that is read.
#[derive(Clone, Copy)]
pub(crate) struct RowFront<'t> {
    /// The text from its gap on.
    pub(crate) at: &'t str,
    pub(crate) gap: &'t str,
    /// The text after the gap.
    pub(crate) text: &'t str,
}

/// What is noted of rows while they are read.
#[derive(Drop)]
pub(crate) struct Notes<'t> {
    /// Those that are no word rows, in order.
    pub(crate) others: Vec<Other>,
    /// Room for the keys of a head that is passed.
    pub(crate) keys: Keys<'t>,
}

/// What is asked of the rows of a part.
#[derive(Clone, Copy)]
pub(crate) struct PartStart {
    /// Whether a document is open there.
    pub(crate) open: bool,
    /// Whether those that are no word rows are noted.
    pub(crate) noted: bool,
}

/// What comes after the marks of a row that are read already, below a parent of this indentation.
#[inline]
fn read_marked<'t>(
    keys: &mut Keys<'t>,
    whole: &'t str,
    column: usize,
    begin: &Begin<'t>,
) -> Result<Filling<'t>, ReadError>
    requires columns { column + begin.now.columns < 2 ^ 32 }
    ensures read { ReadsMarked column begin.now result }
    ensures known { KnowsContent result }
{
    let parent = parent_of(begin.mark, column + begin.columns);
    let content = read_content(keys, whole, begin.mark, parent, begin.rest)?;
    if !(is_entry(begin.mark) || content.alone) {
        let kind = not_alone(content.space, content.head);
        return Err(ReadError::Fault(fault(kind, whole, begin.rest)));
    }
    Ok(content)
}

/// Whether a row may be at a column before this text.
pub(crate) fn may_be_here(limit: Limit, column: usize, text: &[u8]) -> bool
    ensures { result ≡ may_be_at limit column text.now }
{
    limit.allows(column) && !(column == 0 && is_marker(text))
}

/// Where the row in front is, whose gap is read already, what it asks of the next one, what follows, and
/// whether it is a word row for sure.
#[tactic(auto, unfolding(yq_row_table::specs::Reading::row_at))]
#[inline(always)]
fn read_row<'t>(
    keys: &mut Keys<'t>,
    whole: &'t str,
    limit: Limit,
    front: RowFront<'t>,
) -> Result<(Offsets, Limit, &'t str, bool, usize), ReadError>
    requires ends { Ends front.at.now whole.now }
    requires cut { front.at.now ≡ front.gap.now ++ front.text.now }
    requires short { length front.text.now ≤ length whole.now }
    requires small { length whole.now < 2 ^ 32 }
    ensures read { GivesRow whole.now result (row_at_front limit front.entry) }
    ensures is_located { IfOk result (λ x. IsCutIn whole.now x.0) }
    ensures place { IfOk result (BeginsAtFront whole.now front.entry) }
    ensures word { IfOk result (MayBeWordRow whole.now) }
    ensures known { IfOk result (KnowsRowHead whole.now) }
    ensures fault { IfErr result IsOfText }
{
    if let Some(found) = find_row(whole, limit, front) {
        return Ok(found);
    }
    let (indent, rest) = split_spaces(front.text);
    let column = indent.len();
    if !may_be_here(limit, column, rest.as_bytes()) {
        return Err(ReadError::Fault(fault(FaultKind::BadIndent, whole, front.text)));
    }
    let begin = read_begin(rest);
    let content = match read_marked(keys, whole, column, &begin) {
        Ok(content) => content,
        Err(e) => return Err(e),
    };
    let place = offsets_of(whole, front, column, &begin, &content);
    let parent = parent_of(begin.mark, column + begin.columns);
    let limit = Limit::after(parent, content.plain);
    Ok((place, limit, content.rest, false, content.depth))
}

/// Whether no row follows: the end is in front, or a marker.
fn ends_part(text: &[u8]) -> bool
    ensures { result ≡ ends_part text.now }
{
    text.is_empty() || is_marker(text)
}

/// Notes a row among other rows, if it is one and these are noted.
#[inline(always)]
fn push_other(
    others: &mut Vec<Other>,
    row: Other,
    is_word: bool,
    noted: bool,
) -> Result<(), AllocError>
    ensures { OnOk result (noted ≡ true →
        others.new.items ≡ with_other others.old.items is_word row) }
{
    if !noted {
        return Ok(());
    }
    if is_word {
        return Ok(());
    }
    others.push(row)?;
    Ok(())
}

/// Adds where the rows in front are, up to a marker or the end, and the numbers of those that are no word
/// rows, if these are noted; gives the gap after them, and what follows.
fn read_rows<'t>(
    rows: Vec<Offsets>,
    notes: &mut Notes<'t>,
    noted: bool,
    whole: &'t str,
    text: &'t str,
) -> Result<(Vec<Offsets>, &'t str, &'t str), ReadError>
    requires ends { Ends text.now whole.now }
    requires are_there { AreRowsIn whole.now rows.items }
    requires small { length whole.now < 2 ^ 32 }
    ensures found { GivesRows whole.now rows result (spec.all_rows unlimited text.now) }
    ensures placed { PlacesRows whole.now text.now rows result (spec.all_rows unlimited text.now) }
    ensures kept { IfOk result (λ x. AreRowsIn whole.now x.0.items) }
    ensures after { IfOk result (λ x. Ends x.2.now whole.now) }
    ensures others { KeepOthers noted whole.now rows notes.old result notes.new }
    ensures fault { IfErr result IsOfText }
{
    let mut rows = rows;
    let mut limit = Limit::none();
    let mut at = text;
    'rows: loop {
        let (gap, rest) = split_gap(at);
        if ends_part(rest.as_bytes()) {
            return Ok((rows, gap, rest));
        }
        let front = RowFront {
            at,
            gap,
            text: rest,
        };
        let (row, next, after, is_word, depth) = match read_row(
            &mut notes.keys,
            whole,
            limit,
            front,
        ) {
            Ok(found) => found,
            Err(e) => return Err(e),
        };
        let other = Other {
            row: rows.len(),
            depth,
        };
        push_other(&mut notes.others, other, is_word, noted)?;
        rows.push(row)?;
        limit = next;
        at = after;
    }
}

/// Why no row may be here, where no document is open.
fn no_document(text: &[u8]) -> FaultKind
    ensures { result ≢ NotUtf8 }
{
    match text {
        [b'%', ..] => FaultKind::Directive,
        _ => FaultKind::ContentOnMarkerLine,
    }
}

/// Whether rows may be in front: where a document is open, or where there are none.
fn may_begin(is_open: bool, text: &[u8]) -> bool
    ensures { result ≡ (is_open || ends_part text.now) }
{
    is_open || ends_part(text)
}

/// Adds where the rows of a part are; gives the gap after them, and what follows. Where no document
/// is open there may be no rows.
#[tactic(auto, unfolding(yq_row_table::specs::Reading::read_cut_part))]
pub(crate) fn read_part<'t>(
    rows: Vec<Offsets>,
    notes: &mut Notes<'t>,
    at: PartStart,
    whole: &'t str,
    text: &'t str,
) -> Result<(Vec<Offsets>, &'t str, &'t str), ReadError>
    requires ends { Ends text.now whole.now }
    requires are_there { AreRowsIn whole.now rows.items }
    requires small { length whole.now < 2 ^ 32 }
    ensures found { GivesRows whole.now rows result (spec.read_cut_part at.open text.now) }
    ensures placed { PlacesRows whole.now text.now rows result (spec.read_cut_part at.open text.now) }
    ensures kept { IfOk result (λ x. AreRowsIn whole.now x.0.items) }
    ensures after { IfOk result (λ x. Ends x.2.now whole.now) }
    ensures others { KeepOthers at.noted whole.now rows notes.old result notes.new }
    ensures fault { IfErr result IsOfText }
{
    let first = split_gap(text).1;
    if !may_begin(at.open, first.as_bytes()) {
        let kind = no_document(first.as_bytes());
        return Err(ReadError::Fault(fault(kind, whole, first)));
    }
    read_rows(rows, notes, at.noted, whole, text)
}

/// The line of the marker in front, and what follows.
#[tactic(auto, unfolding(yq_row_table::specs::Reading::marker_at))]
pub(crate) fn read_marker<'t>(whole: &str, text: &'t str) -> Result<(&'t str, &'t str), ReadFault>
    requires { Text.is_marker text.now ≡ true }
    ensures read { ReadsAs (λ x. (x.0.now, x.1.now)) result (spec.marker_at text.now) }
    ensures fault { IfErr result (λ f. f.kind ≢ NotUtf8) }
{
    match find_tail(text.split_at(3).1) {
        Some((_, rest)) => Ok((text.split_at(text.len() - rest.len()).0, rest)),
        None => Err(fault(FaultKind::ContentOnMarkerLine, whole, text)),
    }
}
