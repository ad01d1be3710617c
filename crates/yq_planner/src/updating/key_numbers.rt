//! The numbers of entries, by their keys.
ghost use Rattle.std.{specs.BTreeMap.get_by_text, specs.Prelude.{◌≡◌, IfOk, map}};
ghost use Rattle.yq_core.specs.Values.{field_of};
ghost use Rattle.yq_planner.{specs.EntryNumbers.AreNumbered, specs.ChangeAnswers.KeepsNumber};

use std::alloc::{AllocError, Global};
use std::collections::BTreeMap;
use yq_core::Value;

/// The number of the first entry of each key.
pub(crate) type KeyNumbers = BTreeMap<String, usize>;

/// Keeps the number of an entry, if there is none for its key.
pub(crate) fn keep_number(
    alloc: Global,
    numbers: &mut KeyNumbers,
    key: &str,
    number: usize,
) -> Result<(), AllocError>
    ensures { KeepsNumber result numbers.old numbers.new key.now number }
{
    if !numbers.contains_key(key) {
        let owned = String::from_str(alloc, key)?;
        numbers.insert(owned, number)?;
    }
    Ok(())
}

/// The numbers of entries from 0.
pub(crate) fn numbers_of(
    alloc: Global,
    entries: &[(String, Value)],
) -> Result<KeyNumbers, AllocError>
    ensures { IfOk result (λ m. AreNumbered (map field_of entries.now) m) }
{
    let mut numbers = BTreeMap::new(alloc);
    'entries: for number in 0..entries.len() {
        keep_number(alloc, &mut numbers, entries[number].0.as_str(), number)?;
    }
    Ok(numbers)
}

/// The number of the first entry of a key, if there is one.
pub(crate) fn number_of(numbers: &KeyNumbers, key: &str) -> Option<usize>
    ensures { result ≡ get_by_text numbers.now key.now }
{
    numbers.get(key).copied()
}
