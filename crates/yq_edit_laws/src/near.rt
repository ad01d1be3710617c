//! Items and entries to which steps lead, looked for near the last one. The keys of a mapping differ, so the
//! entry of a key is the same wherever the search begins.
ghost use Rattle.std.specs.Prelude.{◌≡◌, IfSome, Some, map, option_map, true};
ghost use Rattle.yq_core.{specs.Entries.{entry_view, flow_part_at, parts_of, tree_step}, specs.Keys.HasUniqueKeys, specs.Paths.To};
ghost use Rattle.yq_core.{specs.Trees.placed_tree, specs.View.{entries_end, inline_view, items_end}};
ghost use Rattle.yq_places.specs.FlowViews.{following_anchor, collection_along};
ghost use Rattle.yq_edit_laws.specs.NearParts as spec;

use yq_core::{Entry, Form, Inline, Piece, Step};

/// Whether the entry of an index has a key.
fn has_key(entries: &Vec<(String, Piece, Inline<'_>)>, index: usize, key: &str) -> bool
    ensures { result ≡ true → spec.HasKeyAt index key.now entries.now.items }
{
    match entries.get(index) {
        Some(entry) => entry.0.as_str() == key,
        None => false,
    }
}

/// The index of the entry of a key, looked for from an index on, to both sides.
fn index_near(entries: &Vec<(String, Piece, Inline<'_>)>, key: &str, near: usize) -> Option<usize>
    requires { spec.HaveDistinctKeys entries.now.items }
    ensures { IfSome result (λ i. spec.LeadsToPart (To key.now) i (entries_end entries.now.items)) }
{
    let start = near.min(entries.len());
    'each: for far in 0..entries.len() {
        let later = start.saturating_add(far);
        if has_key(entries, later, key) {
            return Some(later);
        }
        if far < start && has_key(entries, start - far - 1, key) {
            return Some(start - far - 1);
        }
    }
    None
}

/// The index of the entry to which a step leads, looked for near an index.
fn index_among(
    entries: &Vec<(String, Piece, Inline<'_>)>,
    step: &Step,
    near: usize,
) -> Option<usize>
    requires { spec.HaveDistinctKeys entries.now.items }
    ensures { IfSome result (λ i. spec.LeadsToPart (tree_step step.now) i
        (entries_end entries.now.items)) }
{
    match step {
        Step::Key(key) => index_near(entries, key.as_str(), near),
        Step::Index(_) => None,
    }
}

/// The index of the item to which a step leads.
fn index_in(items: &Vec<Inline<'_>>, step: &Step) -> Option<usize>
    ensures { IfSome result (λ i. spec.LeadsToPart (tree_step step.now) i
        (items_end items.now.items)) }
{
    let Step::Index(index) = step else {
        return None;
    };
    if *index >= items.len() {
        return None;
    }
    Some(*index)
}

/// The index of the item or entry to which a step leads, looked for near an index.
pub fn part_index(node: &Inline<'_>, step: &Step, near: usize) -> Option<usize>
    requires { HasUniqueKeys (placed_tree (inline_view node.now)) }
    ensures { IfSome result (λ i. spec.LeadsToPart (tree_step step.now) i
        (parts_of (inline_view node.now))) }
{
    match &node.form {
        Form::List(items) => index_in(items, step),
        Form::Map(entries) => index_among(entries, step, near),
        Form::Empty | Form::Alias(_) | Form::Scalar(..) => None,
    }
}

/// The entry to which a step leads, looked for near an index, and then the index after it.
fn entry_near<'n, 't>(
    entries: &'n Vec<(String, Piece, Inline<'t>)>,
    step: &Step,
    near: &mut usize,
) -> Option<Entry<'n, 't>>
    requires { spec.HaveDistinctKeys entries.now.items }
    ensures { IfSome result (λ e. Some (entry_view e) ≡
        flow_part_at (tree_step step.now) (entries_end entries.now.items)) }
{
    let Some(index) = index_among(entries, step, *near) else {
        return None;
    };
    let Some(entry) = entries.get(index) else {
        return None;
    };
    *near = index.saturating_add(1);
    Some(Entry {
        key: Some((entry.0.as_str(), entry.1)),
        node: &entry.2,
    })
}

/// The item or entry to which a step leads, looked for near an index, and then the index after it.
pub fn part_near<'n, 't>(
    node: &'n Inline<'t>,
    step: &Step,
    near: &mut usize,
) -> Option<Entry<'n, 't>>
    requires { HasUniqueKeys (placed_tree (inline_view node.now)) }
    ensures { spec.IsPartAt result step.now node.now }
{
    let Form::Map(entries) = &node.form else {
        return node.part(step);
    };
    match entry_near(entries, step, near) {
        Some(entry) => Some(entry),
        None => node.part(step),
    }
}

/// Whether a node is a flow collection.
fn is_collection(node: &Inline<'_>) -> bool
    ensures { result ≡ spec.is_collection (inline_view node.now) }
{
    match &node.form {
        Form::List(_) | Form::Map(_) => true,
        Form::Empty | Form::Alias(_) | Form::Scalar(..) => false,
    }
}

/// The item or entry of a collection to which a step leads, looked for near the index of a depth, if there is one.
fn part_at_depth<'n, 't>(
    node: &'n Inline<'t>,
    step: &Step,
    near: &mut [usize],
    depth: usize,
) -> Option<Entry<'n, 't>>
    requires { spec.IsUniqueNode (inline_view node.now) }
    ensures { spec.IsPartAt result step.now node.now }
{
    if depth >= near.len() || !is_collection(node) {
        return node.part(step);
    }
    let mut index = near[depth];
    let part = part_near(node, step, &mut index);
    near[depth] = index;
    part
}

/// The flow collection to which steps lead in a node. At each depth for which there is an index, an entry is
/// looked for near that, which is the one after it then.
pub fn collection_near<'n, 't>(
    node: &'n Inline<'t>,
    steps: &[Step],
    near: &mut [usize],
) -> Option<&'n Inline<'t>>
    requires { spec.IsUniqueNode (inline_view node.now) }
    ensures { spec.IsCollectionFrom result steps.now node.now }
{
    let mut found = Entry { key: None, node };
    let mut rest = steps;
    let mut depth = 0usize;
    'steps: while let [step, after @ ..] = rest {
        found = part_at_depth(found.node, step, near, depth)?;
        rest = after;
        depth = depth.saturating_add(1);
    }
    if !is_collection(found.node) {
        return None;
    }
    Some(found.node)
}
