//! Heads of rows that are flow collections, passed where the text lends them.
ghost use Rattle.std.specs.Prelude.{◌≡◌, ◌≢◌, ◌≤◌, IfErr, IfOk, IfSome, false};
ghost use Rattle.yq_core.{specs.Inline.depth_limit, specs.PlacedReading.placed_node, specs.declared.fault.FaultKind.TheVariants.NotUtf8};
ghost use Rattle.yq_inline.specs.InlineAnswers.{MeasuresHead};
ghost use Rattle.yq_inline.specs.Passed as spec;

use crate::borrowed::{Passed, pass_mapping, pass_sequence};
use crate::keys::Keys;
use crate::measuring::{Measured, MeasuredKind, measure_node};
use yq_core::{DEPTH_LIMIT, ReadFault, strip};

/// How many collections are nested at most in a collection that is kept without a tree. Each level that is walked
/// passes all that is deeper once more.
const BORROWED_DEPTH: usize = 16;

/// The collection in front.
pub fn pass_head<'t>(keys: &mut Keys<'t>, text: &'t str) -> Option<Passed<'t>>
    ensures nested { IfSome result (λ p. p.nested ≤ depth_limit) }
    ensures passed { IfSome result (λ p. spec.IsPassedHead p.nested text.now p.rest.now) }
{
    if let Some(after) = strip(b'[', text) {
        return pass_sequence(keys, BORROWED_DEPTH, after);
    }
    pass_mapping(keys, BORROWED_DEPTH, strip(b'{', text)?)
}

/// A node outside flow collections, without its parts.
#[derive(Clone, Copy)]
pub struct MeasuredHead<'t> {
    pub node: Measured<'t>,
    /// How many collections are nested in it at most, where it is a flow collection that the text lends; else 0.
    pub depth: usize,
}

/// The node in front, outside flow collections.
pub fn measure_head<'t>(
    keys: &mut Keys<'t>,
    spaces: Option<usize>,
    whole: &str,
    text: &'t str,
) -> Result<MeasuredHead<'t>, ReadFault>
    ensures read { MeasuresHead result (placed_node false spaces 0 depth_limit text.now) }
    ensures passed { IfOk result (λ x. spec.MayBePassed x.depth text.now x.node.rest.now) }
    ensures fault { IfErr result (λ f. f.kind ≢ NotUtf8) }
{
    if let Some(passed) = pass_head(keys, text) {
        let node = Measured {
            anchored: false,
            kind: MeasuredKind::Collection,
            rest: passed.rest,
        };
        return Ok(MeasuredHead {
            node,
            depth: passed.nested,
        });
    }
    let node = measure_node(false, spaces, whole, DEPTH_LIMIT, text)?;
    Ok(MeasuredHead { node, depth: 0 })
}
