//! What rows spell, made where their text doesn't lend it.
ghost use Rattle.std.specs.Prelude.{◌≡◌, ◌<◌, ◌++◌, false, length, option_and_then, option_map, string_bytes, true, IfErr, IfOk, IfSome};
ghost use Rattle.std.{specs.Prelude.{IsTrue, List, ℕ}, specs.List.list_any};
ghost use Rattle.yq_core.{specs.Answers.IsOfText, specs.Text.front, specs.Quoted.IsQuotedText, specs.Runs.is_word_byte};
ghost use Rattle.yq_core.specs.Scalars.{is_quoted as is_in_quotes};
ghost use Rattle.yq_documents.{specs.Decoded.{IsDecodedBy, owned_head}, specs.Reading.{content_is_fit, cut_of, mark_is_fit}};
ghost use Rattle.yq_documents.specs.RowReading.{row_fits};
ghost use Rattle.yq_row_table.{specs.View.slices, specs.WordRows.KnowsHead};
ghost use Rattle.yq_outline.{specs.Names.is_reference, specs.View.head_flow};
ghost use Rattle.yq_compose.{specs.Deciding.Decides, specs.Decoding.{IsCutInto, IsHeadRead, IsKeyDecoded, NamesNone, OfRow}};
ghost use Rattle.yq_compose.specs.Named.{flow_names};
ghost use Rattle.yq_compose.specs.Checking as spec;

use crate::borrowing::lends_head;
use std::alloc::Global;
use yq_core::fault_place::fault_at;
use yq_core::{FaultKind, ReadError, Run, first_is, is_quoted, run_len};
use yq_documents::{Decoded, node_refers};
use yq_inline::Keys;
use yq_inline::borrows::{borrows_text, key_fits};
use yq_outline::Head;
use yq_row_heads::read_head;
use yq_row_table::{Other, Rows};
use yq_row_walk::head_place;
use yq_scalar_reader::folding::quoted_content;

/// Whether an alias, a flow collection or a block scalar begins so.
fn begins_tree(head: &[u8]) -> bool
    ensures { result ≡ spec.begins_tree head.now }
{
    matches!(head, [b'|' | b'>' | b'*' | b'[' | b'{', ..])
}

/// Whether the text lends what a head spells.
fn borrows_head(head: &str) -> bool
    requires { is_in_quotes head.now ≡ true → IsQuotedText head.now }
    ensures { result ≡ spec.borrows_head head.now }
{
    !begins_tree(head.as_bytes()) && borrows_text(head)
}

/// Whether a letter, a digit or no ASCII is in front.
fn begins_word(text: &[u8]) -> bool
    ensures { result ≡ front is_word_byte text.now }
{
    matches!(text, [b'a'..=b'z' | b'A'..=b'Z' | b'0'..=b'9' | 128..=255, ..])
}

/// Whether the head at the beginning of a text is on one line, and begins with a letter, a digit or no ASCII. Most
/// often sixteen bytes show that.
#[inline(always)]
fn is_word_head(head: &str, text: &str) -> bool
    requires { (rest : List ℕ) × (text.now ≡ head.now ++ rest) }
    ensures { IsTrue result → spec.borrows_head head.now ≡ true }
{
    begins_word(head.as_bytes()) && head.len() <= run_len(Run::Quoted(b'\n'), text.as_bytes())
}

/// The text of row `i`'s key that its text doesn't lend, where the key is fit.
fn decode_key<'t>(
    alloc: Global,
    text: &'t str,
    rows: &Rows<'t>,
    i: usize,
) -> Result<Option<String>, ReadError>
    requires cut { IsCutInto text.now rows.now }
    requires within { i < length rows.now.rows }
    ensures fits { OfRow text.now i (λ r. Decides result (mark_is_fit r.mark)) }
    ensures agrees { OfRow text.now i (λ r. IfOk result (λ k. IsKeyDecoded k r)) }
    ensures fault { IfErr result IsOfText }
{
    if !rows.has_colon(i) {
        return Ok(None);
    }
    let key = rows.key(i);
    if !key_fits(key) {
        let place = rows.start(i).saturating_add(rows.gap(i).len());
        return Err(ReadError::Fault(fault_at(FaultKind::MergeKey, text.as_bytes(), place)));
    }
    if !is_quoted(key.as_bytes()) {
        return Ok(None);
    }
    if borrows_text(key) {
        return Ok(None);
    }
    Ok(Some(quoted_content(alloc, key)?))
}

/// Whether an alias is in a head that is made.
fn head_refers(head: &Head<'_>) -> bool
    ensures { result ≡ list_any is_reference (flow_names (head_flow head.now)) }
{
    match head {
        Head::Inline(node) => node_refers(node),
        Head::Scalar(..) | Head::Nothing => false,
    }
}

/// What is read of a row's head.
#[derive(Drop)]
struct HeadRead<'t> {
    /// What is made of it, where its text doesn't lend it.
    head: Option<Head<'t>>,
    /// Whether an alias may be in it.
    refers: bool,
}

/// The head of another row, where its keys are fit.
fn decode_head<'t>(
    alloc: Global,
    keys: &mut Keys<'t>,
    text: &'t str,
    rows: &Rows<'t>,
    other: Other,
) -> Result<HeadRead<'t>, ReadError>
    requires cut { IsCutInto text.now rows.now }
    requires within { other.row < length rows.now.rows }
    requires known { OfRow text.now other.row (λ r. KnowsHead other.depth (slices r).head) }
    ensures fits { OfRow text.now other.row (λ r. Decides result (content_is_fit r.content)) }
    ensures agrees { OfRow text.now other.row (λ r. IfOk result (λ h. IsHeadRead text.now other.row h r)) }
    ensures fault { IfErr result IsOfText }
{
    let i = other.row;
    let borrowed = HeadRead {
        head: None,
        refers: false,
    };
    if !rows.has_head(i) {
        return Ok(borrowed);
    }
    let head = rows.head(i);
    if begins_word(head.as_bytes()) && is_word_head(head, rows.from_head(i)) {
        return Ok(borrowed);
    }
    if borrows_head(head) {
        return Ok(borrowed);
    }
    if first_is(b'*', head.as_bytes()) {
        return Ok(HeadRead {
            head: None,
            refers: true,
        });
    }
    let (start, _) = head_place(rows, i);
    let after = text.split_at(start).1;
    if lends_head(keys, other.depth, head, after) {
        return Ok(borrowed);
    }
    let parent = rows.parent_indent(i);
    match read_head(alloc, text, parent, head, after) {
        Ok(head) => Ok(HeadRead {
            refers: head_refers(&head),
            head: Some(head),
        }),
        Err(e) => Err(e),
    }
}

/// What is made of row `i`, by what is made of its key and of its head, if anything is.
fn decoded_row<'t>(i: usize, key: Option<String>, head: Option<Head<'t>>) -> Option<Decoded<'t>>
    ensures row { IfSome result (λ m. m.row ≡ i) }
    ensures key { option_and_then (λ m. option_map string_bytes m.key) result ≡
        option_map string_bytes key }
    ensures head { owned_head result ≡ head.entry }
{
    if key.is_none() && head.is_none() {
        return None;
    }
    Some(Decoded { row: i, key, head })
}

/// What is read of a row.
#[derive(Drop)]
pub(crate) struct RowRead<'t> {
    /// What is made of it, where its text doesn't lend all it spells.
    pub(crate) decoded: Option<Decoded<'t>>,
    /// Whether an alias may be in it.
    pub(crate) refers: bool,
}

/// What is read of a row, where its keys are fit.
#[inline(always)]
pub(crate) fn decoded_of<'t>(
    alloc: Global,
    keys: &mut Keys<'t>,
    text: &'t str,
    rows: &Rows<'t>,
    other: Other,
) -> Result<RowRead<'t>, ReadError>
    requires cut { IsCutInto text.now rows.now }
    requires within { other.row < length rows.now.rows }
    requires known { OfRow text.now other.row (λ r. KnowsHead other.depth (slices r).head) }
    ensures fits { OfRow text.now other.row (λ r. Decides result (row_fits r)) }
    ensures agrees { OfRow text.now other.row (λ r.
        IfOk result (λ x. IsDecodedBy text.now (cut_of text.now) x.decoded other.row r)) }
    ensures refers { OfRow text.now other.row (λ r.
        IfOk result (λ x. x.refers ≡ false → NamesNone text.now other.row r)) }
    ensures row { IfOk result (λ x. IfSome x.decoded (λ m. m.row ≡ other.row)) }
    ensures fault { IfErr result IsOfText }
{
    let key = match decode_key(alloc, text, rows, other.row) {
        Ok(key) => key,
        Err(e) => return Err(e),
    };
    match decode_head(alloc, keys, text, rows, other) {
        Ok(found) => {
            let HeadRead { head, refers } = found;
            Ok(RowRead {
                decoded: decoded_row(other.row, key, head),
                refers,
            })
        }
        Err(e) => Err(e),
    }
}
