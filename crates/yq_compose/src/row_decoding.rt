//! What rows spell, made one after the other where their text doesn't lend it.
ghost use Rattle.std.specs.Prelude.{◌≡◌, ◌++◌, false, IfErr, IfOk, OnOk};
ghost use Rattle.yq_core.specs.Answers.{IsOfText};
ghost use Rattle.yq_row_table.{specs.View.rows_of, specs.WordRows.AreOtherRows};
ghost use Rattle.yq_documents.specs.Reading.{cut_of, have_fit_keys};
ghost use Rattle.yq_compose.{specs.Deciding.Decides, specs.Decoding.{AreAliasFree, AreDecoded, IsCutInto, list_of_option}};

use crate::decoding::{RowRead, decoded_of};
use std::alloc::{AllocError, Global};
use yq_core::ReadError;
use yq_documents::Decoded;
use yq_inline::Keys;
use yq_row_table::{Other, Rows};

/// What is made of the rows of a text.
#[derive(Drop)]
pub(crate) struct DecodedRows<'t> {
    pub(crate) decoded: Vec<Decoded<'t>>,
    /// Whether an alias may be in them.
    pub(crate) refers: bool,
}

/// Adds what is made of one more row, if anything is.
#[inline(always)]
fn push_decoded<'t>(
    decoded: &mut Vec<Decoded<'t>>,
    row: Option<Decoded<'t>>,
) -> Result<(), AllocError>
    ensures { OnOk result (decoded.new.items ≡ decoded.old.items ++ list_of_option row.entry) }
{
    match row {
        Some(found) => {
            decoded.push(found)?;
            Ok(())
        }
        None => Ok(()),
    }
}

/// What is made of the rows of a text that are no word rows, where the keys of each are fit.
fn decode_others<'t>(
    alloc: Global,
    text: &'t str,
    rows: &Rows<'t>,
    others: &[Other],
) -> Result<DecodedRows<'t>, ReadError>
    requires cut { IsCutInto text.now rows.now }
    requires others { AreOtherRows rows.now.rows 0 others.now }
    ensures fits { Decides result (have_fit_keys (rows_of (cut_of text.now))) }
    ensures decoded { IfOk result (λ x. AreDecoded text.now x.decoded.items) }
    ensures refers { IfOk result (λ x. x.refers ≡ false → AreAliasFree text.now) }
    ensures fault { IfErr result IsOfText }
{
    let mut decoded = Vec::with_capacity(alloc, others.len())?;
    let mut refers = false;
    let mut keys = Keys::new(alloc);
    let mut left = others;
    'rows: while let [other, after @ ..] = left {
        let found = match decoded_of(alloc, &mut keys, text, rows, *other) {
            Ok(found) => found,
            Err(e) => return Err(e),
        };
        let RowRead {
            decoded: row,
            refers: named,
        } = found;
        refers |= named;
        push_decoded(&mut decoded, row)?;
        left = after;
    }
    decoded.shrink_to_fit();
    Ok(DecodedRows { decoded, refers })
}

/// What is made of the rows of a text, where the keys of each are fit.
fn decode_each<'t>(
    alloc: Global,
    text: &'t str,
    rows: &Rows<'t>,
) -> Result<DecodedRows<'t>, ReadError>
    requires cut { IsCutInto text.now rows.now }
    ensures fits { Decides result (have_fit_keys (rows_of (cut_of text.now))) }
    ensures decoded { IfOk result (λ x. AreDecoded text.now x.decoded.items) }
    ensures refers { IfOk result (λ x. x.refers ≡ false → AreAliasFree text.now) }
    ensures fault { IfErr result IsOfText }
{
    let mut decoded = Vec::new(alloc);
    let mut refers = false;
    let mut keys = Keys::new(alloc);
    let mut at = 0;
    'rows: while at < rows.len() {
        let other = Other { row: at, depth: 0 };
        let found = match decoded_of(alloc, &mut keys, text, rows, other) {
            Ok(found) => found,
            Err(e) => return Err(e),
        };
        let RowRead {
            decoded: row,
            refers: here,
        } = found;
        refers |= here;
        push_decoded(&mut decoded, row)?;
        at += 1;
    }
    decoded.shrink_to_fit();
    Ok(DecodedRows { decoded, refers })
}

/// What is made of the rows of a text, where the keys of each are fit.
pub(crate) fn decode_rows<'t>(
    alloc: Global,
    text: &'t str,
    rows: &Rows<'t>,
) -> Result<DecodedRows<'t>, ReadError>
    requires cut { IsCutInto text.now rows.now }
    ensures fits { Decides result (have_fit_keys (rows_of (cut_of text.now))) }
    ensures decoded { IfOk result (λ x. AreDecoded text.now x.decoded.items) }
    ensures refers { IfOk result (λ x. x.refers ≡ false → AreAliasFree text.now) }
    ensures fault { IfErr result IsOfText }
{
    match rows.others() {
        Some(others) => decode_others(alloc, text, rows, others),
        None => decode_each(alloc, text, rows),
    }
}
