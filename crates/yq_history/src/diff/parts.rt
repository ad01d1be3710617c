//! Two texts as parts, by steps through both.
ghost use Rattle.yq_history.specs.DiffParts.{AddsLines, ArePartsOf};
ghost use Rattle.std.specs.Prelude.{◌≡◌, ◌++◌, IfOk};
ghost use Rattle.yq_core.specs.Text.{text_lines};

use crate::diff::context::{split_context, split_skipped};
use crate::diff::cutting::{Cut, next_cut};
use crate::diff::part::Part;
use crate::diff::step::Step;
use std::alloc::{AllocError, Global};

/// Adds a part of lines that are skipped, if there are any.
fn push_skipped<'a>(parts: &mut Vec<Part<'a>>, text: &'a str) -> Result<(), AllocError>
    ensures { AddsLines result parts.old.items parts.new.items text.now text.now }
{
    if text.is_empty() {
        return Ok(());
    }
    parts.push(Part::Skipped(text))?;
    Ok(())
}

/// The lines that are shown after a change, if there is one, and the lines that follow them.
fn split_after<'a>(is_first: bool, text: &'a str) -> (&'a str, &'a str)
    ensures { text_lines text.now ≡ text_lines result.0.now ++ text_lines result.1.now }
{
    if is_first {
        return ("", text);
    }
    split_context(text)
}

/// Adds the lines that are in both texts before a change; the first of them are after another change, or
/// the text begins with them.
fn push_before<'a>(parts: &mut Vec<Part<'a>>, text: &'a str) -> Result<(), AllocError>
    ensures { AddsLines result parts.old.items parts.new.items text.now text.now }
{
    let (context, rest) = split_after(parts.is_empty(), text);
    let (skipped, before) = split_skipped(rest);
    parts.push(Part::Unchanged(context))?;
    push_skipped(parts, skipped)?;
    parts.push(Part::Unchanged(before))?;
    Ok(())
}

/// Adds the lines that are in both texts after the last change.
fn push_following<'a>(parts: &mut Vec<Part<'a>>, text: &'a str) -> Result<(), AllocError>
    ensures { AddsLines result parts.old.items parts.new.items text.now text.now }
{
    let (context, skipped) = split_context(text);
    parts.push(Part::Unchanged(context))?;
    push_skipped(parts, skipped)
}

/// Adds lines of the old text and lines of the new one that replace these.
fn push_change<'a>(
    parts: &mut Vec<Part<'a>>,
    gone: &'a str,
    come: &'a str,
) -> Result<(), AllocError>
    ensures { AddsLines result parts.old.items parts.new.items gone.now come.now }
{
    parts.push(Part::Deleted(gone))?;
    parts.push(Part::Added(come))?;
    Ok(())
}

/// Adds what follows the last step in either text.
fn push_rest<'a>(parts: &mut Vec<Part<'a>>, old: &'a str, new: &'a str) -> Result<(), AllocError>
    ensures { AddsLines result parts.old.items parts.new.items old.now new.now }
{
    if old == new {
        push_following(parts, old)
    } else {
        push_change(parts, old, new)
    }
}

/// The parts of two texts. Where a step isn't one of both, all lines from there on are replaced.
pub(crate) fn parts_of<'a>(
    alloc: Global,
    old: &'a str,
    new: &'a str,
    steps: &[Step],
) -> Result<Vec<Part<'a>>, AllocError>
    ensures { IfOk result (λ ps. ArePartsOf ps.items old.now new.now) }
{
    let mut parts = Vec::new(alloc);
    let mut old = old;
    let mut new = new;
    'steps: for step in steps {
        let Some(
            Cut {
                kept,
                gone,
                come,
                old: old_rest,
                new: new_rest,
            },
        ) = next_cut(old, new, *step)
        else {
            break;
        };
        push_before(&mut parts, kept)?;
        push_change(&mut parts, gone, come)?;
        old = old_rest;
        new = new_rest;
    }
    push_rest(&mut parts, old, new)?;
    Ok(parts)
}
