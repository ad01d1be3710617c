//! A document, checked by its rows.
ghost use Rattle.std.specs.Prelude.{◌≡◌, ◌&&◌, [], false, IfErr};
ghost use Rattle.yq_core.specs.Answers.{IsOfText};
ghost use Rattle.yq_outline.{specs.Names.line_names, specs.Lines.lines_of_rows};
ghost use Rattle.yq_documents.specs.Reading.{has_short_root};
ghost use Rattle.yq_compose.{specs.Checking.{IsChecked, OfChecked}, specs.Deciding.Decides, specs.Decoding.AreAliasFree};
ghost use Rattle.yq_outline.specs.LinesReading as lines;

use crate::ahead::ahead_from;
use crate::anchors::second_anchor;
use crate::bound::unbound_alias;
use crate::checked::{Checked, row_fault};
use crate::document_names::names_of;
use crate::fit::has_short_root;
use crate::reached::with_level;
use crate::sound::check_lines;
use std::alloc::Global;
use yq_core::fault_place::fault_at;
use yq_core::{DEPTH_LIMIT, FaultKind, ReadError};
use yq_inline::Keys;
use yq_outline::Position;

/// The aliases of a document: an earlier anchor of its name for each. Whether there may be some is known.
fn check_aliases(alloc: Global, x: Checked<'_, '_>, refers: bool) -> Result<(), ReadError>
    requires ready { IsChecked x }
    requires refers { refers ≡ false → AreAliasFree x.text.now }
    ensures sound { OfChecked x.entry (λ ls n. Decides result (lines.are_bound [] (line_names ls))) }
    ensures fault { IfErr result IsOfText }
{
    if !refers {
        return Ok(());
    }
    let names = names_of(alloc, x)?;
    match unbound_alias(alloc, &names)? {
        Some(byte) => Err(ReadError::Fault(fault_at(
            FaultKind::UnknownAlias,
            x.text.as_bytes(),
            byte,
        ))),
        None => Ok(()),
    }
}

/// The anchors and aliases of a document: no second anchor of a node, no anchor of an alias, and an
/// earlier anchor of its name for each alias.
fn check_names(alloc: Global, x: Checked<'_, '_>, refers: bool) -> Result<(), ReadError>
    requires ready { IsChecked x }
    requires refers { refers ≡ false → AreAliasFree x.text.now }
    ensures sound { OfChecked x.entry (λ ls n. Decides result (lines.names_are_sound ls)) }
    ensures fault { IfErr result IsOfText }
{
    match second_anchor(x) {
        Some(at) => Err(ReadError::Fault(row_fault(x, at, FaultKind::BadScalar))),
        None => check_aliases(alloc, x, refers),
    }
}

/// The rows of a document: its root is no plain scalar of several lines, its lines are those of a tree,
/// and its anchors and aliases are as is asked.
pub(crate) fn check_document(
    alloc: Global,
    x: Checked<'_, '_>,
    refers: bool,
) -> Result<(), ReadError>
    requires ready { IsChecked x }
    requires refers { refers ≡ false → AreAliasFree x.text.now }
    ensures sound { (k : IsChecked x.entry) → Decides result
        (has_short_root k.document.rows && lines.lines_are_sound (lines_of_rows k.document.rows)) }
    ensures fault { IfErr result IsOfText }
{
    let first = Position {
        row: x.document.first,
        line: 0,
    };
    if !has_short_root(x.rows, x.document) {
        return Err(ReadError::Fault(row_fault(x, first, FaultKind::BadScalar)));
    }
    let start = with_level(x, first, ahead_from(x.decoded, first.row));
    let mut keys = Keys::new(alloc);
    match check_lines(x, &mut keys, start, 0, DEPTH_LIMIT) {
        Ok(_) => check_names(alloc, x, refers),
        Err(e) => Err(e),
    }
}
