//! Aliases in inline nodes.
ghost use Rattle.std.{specs.Prelude.◌≡◌, specs.List.list_any};
ghost use Rattle.yq_core.{specs.Trees.{parts_tree, placed_tree}, specs.View.{entries_end, items_end, inline_view}};
ghost use Rattle.yq_core.specs.Anchors.{names_in, names_of};
ghost use Rattle.yq_outline.specs.Names.{is_reference};

use yq_core::{Form, Inline, Piece};

/// Whether an alias is in an inline node.
#[cycle(refers)]
pub fn node_refers(node: &Inline<'_>) -> bool
    ensures { result ≡ list_any is_reference (names_of (placed_tree (inline_view node.now))) }
{
    match &node.form {
        Form::Empty | Form::Scalar(..) => false,
        Form::Alias(_) => true,
        Form::List(items) => items_refer(items),
        Form::Map(entries) => entries_refer(entries),
    }
}

/// The same of items.
#[cycle(refers)]
fn items_refer(items: &Vec<Inline<'_>>) -> bool
    ensures { result ≡ list_any is_reference (names_in (parts_tree (items_end items.now.items))) }
{
    'each: for item in items {
        if node_refers(item) {
            return true;
        }
    }
    false
}

/// The same of entries.
#[cycle(refers)]
fn entries_refer(entries: &Vec<(String, Piece, Inline<'_>)>) -> bool
    ensures { result ≡ list_any is_reference (names_in (parts_tree (entries_end entries.now.items))) }
{
    'each: for entry in entries {
        if node_refers(&entry.2) {
            return true;
        }
    }
    false
}
