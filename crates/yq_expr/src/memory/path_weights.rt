//! How much memory the paths of an update's operations take: each operation has all steps of its own.

use yq_eval::{FoundPlace, FoundPlaces, Missing, NodePath, NodeStep};
use yq_semantics::{PathStep, Stage};

/// How many bytes a step takes without its key.
const STEP_WEIGHT: usize = 64;

/// How many bytes a step of a pipe takes in a path, more or less, without a key that `[]` finds.
fn step_weight(step: &PathStep) -> usize {
    match step {
        PathStep::Key(key) => key.len().saturating_add(STEP_WEIGHT),
        PathStep::Index(_) | PathStep::Each => STEP_WEIGHT,
    }
}

/// How many bytes a path takes, more or less.
fn found_weight(path: NodePath<'_>) -> usize {
    let mut sum = 0usize;
    let mut rest = path;
    'steps: while let NodePath::Below(front, last) = rest {
        let key = match last {
            NodeStep::Key(key) => key.len(),
            NodeStep::Index(_) => 0,
        };
        sum = sum.saturating_add(key.saturating_add(STEP_WEIGHT));
        rest = *front;
    }
    sum
}

/// How many bytes the collections take, more or less, that are made for steps that are missing.
fn missing_weight(missing: Missing<'_>) -> usize {
    let mut sum = 0usize;
    let mut rest = missing;
    'steps: while let Missing::Further(front, step) = rest {
        sum = sum.saturating_add(step_weight(step).saturating_mul(2));
        rest = *front;
    }
    sum
}

/// How many bytes the path of a place takes, more or less, with what is made for steps that are missing there.
pub(crate) fn path_weight(place: &FoundPlace<'_, '_>) -> usize {
    found_weight(place.path).saturating_add(missing_weight(place.missing))
}

/// The same of places together.
pub(crate) fn paths_weight(places: &FoundPlaces<'_, '_>) -> usize {
    match places {
        FoundPlaces::Listed(places) => {
            let mut sum = 0usize;
            'places: for place in places {
                sum = sum.saturating_add(path_weight(place));
            }
            sum
        }
        FoundPlaces::Children(parent) => {
            let each = path_weight(parent).saturating_add(STEP_WEIGHT);
            parent.node.count().saturating_mul(each)
        }
    }
}

/// How many bytes steps take, more or less, without the keys that `[]` finds; and how many of them are `[]`.
fn steps_weight(steps: &[PathStep]) -> (usize, usize) {
    let mut sum = 0usize;
    let mut each = 0usize;
    'steps: for step in steps {
        sum = sum.saturating_add(step_weight(step));
        if let PathStep::Each = step {
            each = each.saturating_add(1);
        }
    }
    (sum, each)
}

/// Whether a pipe has a step to each item or value.
pub(crate) fn has_each(pipe: &[Stage]) -> bool {
    'stages: for stage in pipe {
        if let Stage::Path(steps) = stage {
            let (_, each) = steps_weight(steps);
            if each > 0 {
                return true;
            }
        }
    }
    false
}

/// How many bytes the path of a place takes at most, more or less, to which a pipe leads, where no key has more
/// bytes than `key`. The keys that the last `[]` finds are apart in the text, so that they take no more than it.
pub(crate) fn most_of_path(pipe: &[Stage], key: usize) -> usize {
    let mut sum = 0usize;
    let mut each = 0usize;
    'stages: for stage in pipe {
        if let Stage::Path(steps) = stage {
            let (weight, found) = steps_weight(steps);
            sum = sum.saturating_add(weight);
            each = each.saturating_add(found);
        }
    }
    let shared = each.saturating_sub(1);
    sum.saturating_add(shared.saturating_mul(key))
}
