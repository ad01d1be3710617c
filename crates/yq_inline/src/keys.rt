//! The keys of mappings, one in the other.
ghost use Rattle.std.specs.Prelude.{◌≡◌, ◌≤◌, ◌↔◌, drop, length, map, take, IfSome, IsTrue};
ghost use Rattle.yq_core.specs.Keys.{AreDistinct, are_distinct};
ghost use Rattle.yq_inline.specs.KeyTexts.{key_texts};

use yq_scalar_reader::are_distinct;

/// The keys of mappings that are nested in each other: those of the innermost mapping come last.
pub type Keys<'k> = Vec<&'k str>;

/// Whether no two of three keys or fewer are equal.
#[inline(always)]
fn few_differ(keys: &[&str]) -> Option<bool>
    ensures { IfSome result (λ differ. differ ≡ are_distinct (key_texts keys.now)) }
{
    match keys {
        [] | [_] => Some(true),
        [a, b] => Some(a != b),
        [a, b, c] => Some(a != b && a != c && b != c),
        _ => None,
    }
}

/// Whether no two keys are equal. Their order may change.
#[inline(always)]
fn all_differ(keys: &mut [&str]) -> bool
    ensures { IsTrue result ↔ AreDistinct (map (λ k. k.now) keys.old) }
{
    match few_differ(keys) {
        Some(differ) => differ,
        None => are_distinct(keys),
    }
}

/// Removes the keys after so many others, and answers whether the removed ones differ.
#[inline(always)]
pub fn take_distinct(keys: &mut Keys<'_>, others: usize) -> bool
    requires { others ≤ length keys.old.items }
    ensures differ { IsTrue result ↔ AreDistinct (drop others (key_texts keys.old.items)) }
    ensures kept { key_texts keys.new.items ≡ take others (key_texts keys.old.items) }
{
    let differ = all_differ(&mut keys[others..]);
    keys.truncate(others);
    differ
}
