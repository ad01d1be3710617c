//! The anchors and aliases in flow nodes, in the order of the text.
ghost use Rattle.std.specs.Prelude.{◌≡◌, ◌++◌, [], option_map, OnOk};
ghost use Rattle.yq_core.specs.Trees.{parts_tree, placed_tree};
ghost use Rattle.yq_compose.specs.Named.{all_named};
ghost use Rattle.yq_core.specs.View as inline;
ghost use Rattle.yq_core.specs.Anchors as spec;

use std::alloc::AllocError;
use yq_core::{Form, Inline, Piece};

/// An anchor, or an alias, by its name; of an alias, the byte of the text where it begins.
#[derive(Clone, Copy)]
pub(crate) enum Name<'t> {
    Anchors(&'t str),
    Refers(&'t str, usize),
}

/// Adds the anchor of a node, if it has one.
pub(crate) fn push_anchor<'t>(
    names: &mut Vec<Name<'t>>,
    anchor: Option<&'t str>,
) -> Result<(), AllocError>
    ensures { OnOk result (all_named names.new.items ≡ all_named names.old.items ++
        spec.anchor_names (option_map (λ a. a.now) anchor.entry) []) }
{
    match anchor {
        None => Ok(()),
        Some(anchor) => {
            names.push(Name::Anchors(anchor))?;
            Ok(())
        }
    }
}

/// Adds the names in an inline node. An alias has no anchor.
#[cycle(names)]
pub(crate) fn push_node<'t>(names: &mut Vec<Name<'t>>, node: &Inline<'t>) -> Result<(), AllocError>
    ensures { OnOk result (all_named names.new.items ≡ all_named names.old.items ++
        spec.names_of (placed_tree (inline.inline_view node.now))) }
{
    match &node.form {
        Form::Empty | Form::Scalar(..) => push_anchor(names, node.anchor),
        Form::Alias(name) => {
            names.push(Name::Refers(name, node.start))?;
            Ok(())
        }
        Form::List(items) => {
            push_anchor(names, node.anchor)?;
            push_items(names, items)
        }
        Form::Map(entries) => {
            push_anchor(names, node.anchor)?;
            push_entries(names, entries)
        }
    }
}

/// The same of items.
#[cycle(names)]
fn push_items<'t>(names: &mut Vec<Name<'t>>, items: &Vec<Inline<'t>>) -> Result<(), AllocError>
    ensures { OnOk result (all_named names.new.items ≡ all_named names.old.items ++
        spec.names_in (parts_tree (inline.items_end items.now.items))) }
{
    'each: for item in items {
        push_node(names, item)?;
    }
    Ok(())
}

/// The same of entries.
#[cycle(names)]
fn push_entries<'t>(
    names: &mut Vec<Name<'t>>,
    entries: &Vec<(String, Piece, Inline<'t>)>,
) -> Result<(), AllocError>
    ensures { OnOk result (all_named names.new.items ≡ all_named names.old.items ++
        spec.names_in (parts_tree (inline.entries_end entries.now.items))) }
{
    'each: for entry in entries {
        push_node(names, &entry.2)?;
    }
    Ok(())
}
