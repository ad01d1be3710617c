//! What is asked of flow collections: how deep they are nested, and the keys of each.
ghost use Rattle.std.specs.Prelude.{◌≡◌, ◌&&◌, Some, IfErr, IsTrue, true};
ghost use Rattle.yq_core.{specs.Answers.IsOfText, specs.Keys.{are_distinct, keys_of}, specs.Trees.{parts_tree, placed_tree}};
ghost use Rattle.yq_core.specs.View.{borrowed_view, entries_end, items_end, inline_view};
ghost use Rattle.yq_compose.{specs.Deciding.Decides, specs.Flows.flow_view};
ghost use Rattle.yq_outline.specs.Sound.{head_is_sound};
ghost use Rattle.yq_outline.specs.Sound as spec;

use crate::nested::Flow;
use std::alloc::{AllocError, Global};
use std::collections::BTreeMap;
use yq_core::fault_place::fault_at;
use yq_core::{BorrowedNode, FaultKind, Form, Inline, Piece, ReadError};
use yq_inline::Keys;
use yq_inline::reading::read_node;
use yq_scalar_reader::are_distinct;

/// An inline node of a text, in which at most so many collections may be nested.
#[cycle(nested)]
pub(crate) fn node_fault(
    alloc: Global,
    text: &str,
    node: &Inline<'_>,
    depth: usize,
) -> Result<(), ReadError>
    ensures sound { Decides result (spec.head_is_sound depth
        (Some (placed_tree (inline_view node.now)))) }
    ensures fault { IfErr result IsOfText }
{
    match &node.form {
        Form::List(items) => {
            if depth == 0 {
                return Err(ReadError::Fault(fault_at(
                    FaultKind::TooDeep,
                    text.as_bytes(),
                    node.start,
                )));
            }
            items_fault(alloc, text, items, depth - 1)
        }
        Form::Map(entries) => {
            if depth == 0 {
                return Err(ReadError::Fault(fault_at(
                    FaultKind::TooDeep,
                    text.as_bytes(),
                    node.start,
                )));
            }
            entries_fault(alloc, text, entries, depth - 1)
        }
        Form::Empty => Ok(()),
        Form::Alias(_) => Ok(()),
        Form::Scalar(..) => Ok(()),
    }
}

/// The same of the items of a sequence.
#[cycle(nested)]
fn items_fault(
    alloc: Global,
    text: &str,
    items: &Vec<Inline<'_>>,
    depth: usize,
) -> Result<(), ReadError>
    ensures sound { Decides result
        (spec.are_sound depth (parts_tree (items_end items.now.items))) }
    ensures fault { IfErr result IsOfText }
{
    'each: for item in items {
        match node_fault(alloc, text, item, depth) {
            Ok(()) => {}
            Err(e) => return Err(e),
        }
    }
    Ok(())
}

/// The byte of the text at which the first key is that an earlier entry has; 0 where there is none.
fn repeated_key(
    alloc: Global,
    entries: &Vec<(String, Piece, Inline<'_>)>,
) -> Result<usize, AllocError> {
    let mut known = BTreeMap::new(alloc);
    'each: for entry in entries {
        match known.insert(entry.0.as_str(), ()) {
            Ok(None) => {}
            Ok(Some(_)) => return Ok(entry.1.start),
            Err(e) => return Err(e.into()),
        }
    }
    Ok(0)
}

/// The same of the entries of a mapping, and of their keys.
#[cycle(nested)]
fn entries_fault(
    alloc: Global,
    text: &str,
    entries: &Vec<(String, Piece, Inline<'_>)>,
    depth: usize,
) -> Result<(), ReadError>
    ensures sound { let cs = parts_tree (entries_end entries.now.items) in
        Decides result (spec.are_sound depth cs && are_distinct (keys_of cs)) }
    ensures fault { IfErr result IsOfText }
{
    let mut keys = Keys::new(alloc);
    'each: for entry in entries {
        match node_fault(alloc, text, &entry.2, depth) {
            Ok(()) => {}
            Err(e) => return Err(e),
        }
        keys.push(entry.0.as_str())?;
    }
    if !are_distinct(keys.as_mut_slice()) {
        let byte = repeated_key(alloc, entries)?;
        return Err(ReadError::Fault(fault_at(FaultKind::DuplicateKey, text.as_bytes(), byte)));
    }
    Ok(())
}

/// Whether the text lends a node, and it says that no more than so many collections are nested in it.
#[inline(always)]
pub(crate) fn is_shallow(node: Flow<'_, '_>, depth: usize) -> bool
    ensures { IsTrue result → head_is_sound depth (Some (placed_tree (flow_view node.entry))) ≡ true }
{
    match node {
        Flow::Borrowed(node) => node.depth <= depth,
        _ => false,
    }
}

/// A node that the text lends, in which at most so many collections may be nested: it is read.
pub(crate) fn borrowed_fault<'t>(
    alloc: Global,
    text: &'t str,
    node: BorrowedNode<'t>,
    depth: usize,
) -> Result<(), ReadError>
    ensures sound { Decides result (spec.head_is_sound depth
        (Some (placed_tree (borrowed_view node.entry)))) }
    ensures fault { IfErr result IsOfText }
{
    let whole = if node.text.len() <= text.len() {
        text
    } else {
        node.text
    };
    match read_node(alloc, true, Some(0), whole, node.depth, node.text) {
        Ok((found, _)) => node_fault(alloc, text, &found, depth),
        Err(e) => Err(e),
    }
}
