//! Aliases that name one of the last anchors before them.
ghost use Rattle.std.specs.Prelude.{◌≡◌, ◌≤◌, [], length, true, IsTrue};
ghost use Rattle.yq_compose.specs.Named.{HasAnchorBefore, all_named};
ghost use Rattle.yq_outline.specs.LinesReading.{are_bound};

use crate::names::Name;

/// Whether one of the last eight names before a place is that of this anchor.
#[inline(always)]
fn is_near(names: &[Name<'_>], at: usize, wanted: &str) -> bool
    requires { at ≤ length names.now }
    ensures { IsTrue result → HasAnchorBefore (all_named names.now) at wanted.now }
{
    'back: for back in 1..9usize {
        if at < back {
            return false;
        }
        let named = names[at - back];
        match named {
            Name::Anchors(name) => {
                if name == wanted {
                    return true;
                }
            }
            Name::Refers(..) => {}
        }
    }
    false
}

/// Whether each alias names one of the last anchors before it.
pub(crate) fn all_near(names: &[Name<'_>]) -> bool
    ensures { IsTrue result → are_bound [] (all_named names.now) ≡ true }
{
    let mut at = 0;
    'names: while at < names.len() {
        let named = names[at];
        match named {
            Name::Anchors(_) => {}
            Name::Refers(name, _) => {
                if !is_near(names, at, name) {
                    return false;
                }
            }
        }
        at += 1;
    }
    true
}
