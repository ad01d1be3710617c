//! Whether the keys of one mapping differ.
ghost use Rattle.std.{specs.Prelude.{◌≡◌, ◌<◌, ◌↔◌, length, map, IsTrue, IsSorted}, specs.Ordering.nat_cmp};
ghost use Rattle.std.specs.Cmp.Lexicographic.{slice_cmp};
ghost use Rattle.yq_core.specs.Keys.{AreDistinct, DiffersBefore};

/// How many keys are compared each with each.
const FEW_KEYS: usize = 8;

/// Whether no two keys are equal. Many keys that neither rise nor grow already are sorted.
pub fn are_distinct(keys: &mut [&str]) -> bool
    ensures { IsTrue result ↔ AreDistinct (map (λ k. k.now) keys.old) }
{
    if keys.len() <= FEW_KEYS {
        return all_differ(keys);
    }
    if are_rising(keys) || are_growing(keys) {
        return true;
    }
    keys.sort_unstable();
    neighbours_differ(keys)
}

/// Whether the key at this place differs from each one before it.
fn differs_before(keys: &[&str], at: usize) -> bool
    requires { at < length keys.now }
    ensures { IsTrue result ↔ DiffersBefore (map (λ k. k.now) keys.now) at }
{
    'earlier: for earlier in 0..at {
        if keys[earlier] == keys[at] {
            return false;
        }
    }
    true
}

/// Whether no two keys are equal, each compared with each.
fn all_differ(keys: &[&str]) -> bool
    ensures { IsTrue result ↔ AreDistinct (map (λ k. k.now) keys.now) }
{
    'each: for at in 1..keys.len() {
        if !differs_before(keys, at) {
            return false;
        }
    }
    true
}

/// Whether each key is less than the next one.
fn are_rising(keys: &[&str]) -> bool
    ensures { IsTrue result → AreDistinct (map (λ k. k.now) keys.now) }
{
    'pairs: for later in 1..keys.len() {
        if keys[later - 1] >= keys[later] {
            return false;
        }
    }
    true
}

/// Whether each key is shorter than the next one, or as long and less.
fn are_growing(keys: &[&str]) -> bool
    ensures { IsTrue result → AreDistinct (map (λ k. k.now) keys.now) }
{
    'pairs: for later in 1..keys.len() {
        let before = keys[later - 1];
        let next = keys[later];
        if before.len() > next.len() {
            return false;
        }
        if before.len() == next.len() && before >= next {
            return false;
        }
    }
    true
}

/// Whether no two neighbours of sorted keys are equal.
fn neighbours_differ(keys: &[&str]) -> bool
    requires { IsSorted (λ a b. slice_cmp nat_cmp a.now b.now) keys.now }
    ensures { IsTrue result ↔ AreDistinct (map (λ k. k.now) keys.now) }
{
    'pairs: for later in 1..keys.len() {
        if keys[later - 1] == keys[later] {
            return false;
        }
    }
    true
}
