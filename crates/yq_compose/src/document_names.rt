//! The anchors and aliases of a document, in the order of the text.
ghost use Rattle.std.specs.Prelude.{◌≡◌, ◌++◌, option_map, IfOk, OnOk};
ghost use Rattle.yq_outline.specs.Names.{line_names};
ghost use Rattle.yq_compose.{specs.Checking.{IsChecked, OfChecked}, specs.Flows.flow_view, specs.Named.{all_named, flow_names}};

use crate::ahead::{ahead_from, ahead_of};
use crate::checked::Checked;
use crate::names::{Name, push_anchor, push_node};
use crate::nested::{Flow, row_flow};
use std::alloc::{AllocError, Global};
use yq_documents::anchor_name;

/// Adds the names in an alias or flow collection, if there is one.
fn push_flow<'t>(names: &mut Vec<Name<'t>>, flow: Option<Flow<'_, 't>>) -> Result<(), AllocError>
    ensures { OnOk result (all_named names.new.items ≡ all_named names.old.items ++
        flow_names (option_map flow_view flow.entry)) }
{
    let Some(flow) = flow else {
        return Ok(());
    };
    match flow {
        Flow::Owned(node) => push_node(names, node),
        Flow::Borrowed(_) => Ok(()),
        Flow::Alias(name, start) => {
            names.push(Name::Refers(name, start))?;
            Ok(())
        }
    }
}

/// The anchors and aliases of a document, in the order of the text.
pub(crate) fn names_of<'t>(alloc: Global, x: Checked<'_, 't>) -> Result<Vec<Name<'t>>, AllocError>
    requires ready { IsChecked x }
    ensures { IfOk result (λ ns. OfChecked x.entry (λ ls n. all_named ns.items ≡ line_names ls)) }
{
    let mut names = Vec::new(alloc);
    let mut decoded = ahead_from(x.decoded, x.document.first);
    'rows: for i in x.document.first..x.document.end {
        push_anchor(&mut names, anchor_name(x.rows.anchor(i)))?;
        decoded = ahead_of(decoded, i);
        push_flow(&mut names, row_flow(x, i, decoded))?;
    }
    Ok(names)
}
