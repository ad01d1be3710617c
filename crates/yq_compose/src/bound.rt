//! Aliases and the anchors before them.
ghost use Rattle.std.specs.Prelude.{◌≡◌, [], is_none, IfOk};
ghost use Rattle.yq_compose.specs.Named.{all_named};
ghost use Rattle.yq_outline.specs.LinesReading.{are_bound};

use crate::names::Name;
use crate::near::all_near;
use std::alloc::{AllocError, Global};
use std::collections::BTreeMap;

/// The byte of the text at which the first alias comes before which no anchor of its name is.
pub(crate) fn unbound_alias(alloc: Global, names: &[Name<'_>]) -> Result<Option<usize>, AllocError>
    ensures { IfOk result (λ l. is_none l ≡ are_bound [] (all_named names.now)) }
{
    if all_near(names) {
        return Ok(None);
    }
    let mut known = BTreeMap::new(alloc);
    let mut at = 0;
    'names: while at < names.len() {
        let named = names[at];
        match named {
            Name::Anchors(name) => {
                known.insert(name, ())?;
            }
            Name::Refers(name, byte) => {
                if !known.contains_key(name) {
                    return Ok(Some(byte));
                }
            }
        }
        at += 1;
    }
    Ok(None)
}
