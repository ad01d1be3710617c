//! Where entries of flow collections are looked for.
use crate::change::are_same_steps;
use std::alloc::{AllocError, Global};
use std::collections::BTreeMap;
use yq_core::{Form, Inline, Step};
use yq_documents::Path;
use yq_edit_laws::last_step;

/// Of a collection with no more entries each is looked for from the last one on.
const FEW: usize = 16;

/// The indexes of the keys of a collection.
#[derive(Drop)]
struct KeyNumbers<'s> {
    /// The steps that lead to it in its head.
    steps: &'s [Step],
    numbers: BTreeMap<String, usize>,
}

/// Where entries are looked for: near the ones that were found last, or by their keys.
#[derive(Drop)]
pub(crate) struct Near<'s> {
    /// At each depth of the way to a collection.
    pub(crate) above: Vec<usize>,
    /// In the collection.
    pub(crate) last: usize,
    /// Whether its entries come in any order.
    any_order: bool,
    known: Option<KeyNumbers<'s>>,
}

/// The indexes of the keys of a node, if it has many.
fn key_numbers(alloc: Global, node: &Inline<'_>) -> Result<BTreeMap<String, usize>, AllocError> {
    let mut numbers = BTreeMap::new(alloc);
    let Form::Map(entries) = &node.form else {
        return Ok(numbers);
    };
    if entries.len() <= FEW {
        return Ok(numbers);
    }
    'each: for i in 0..entries.len() {
        let key = String::from_str(alloc, entries[i].0.as_str())?;
        numbers.insert(key, i)?;
    }
    Ok(numbers)
}

impl<'s> Near<'s> {
    /// Nothing was found yet: at each depth the first entry is looked at first.
    pub(crate) fn new(alloc: Global, any_order: bool) -> Result<Near<'s>, AllocError> {
        let above = vec![in alloc; 0, 0, 0, 0, 0, 0, 0, 0]?;
        Ok(Near {
            above,
            last: 0,
            any_order,
            known: None,
        })
    }

    /// Whether the keys of the collection to which steps lead are known.
    fn knows(&self, steps: &[Step]) -> bool {
        match &self.known {
            Some(known) => are_same_steps(known.steps, steps),
            None => false,
        }
    }

    /// From now on the entry to which the last step of a path leads is looked for where it is in a collection.
    pub(crate) fn go_to(
        &mut self,
        alloc: Global,
        node: &Inline<'_>,
        steps: &'s [Step],
        path: &Path,
    ) -> Result<(), AllocError> {
        let Some((_, Step::Key(key))) = last_step(&path.steps) else {
            return Ok(());
        };
        if !self.any_order {
            return Ok(());
        }
        if !self.knows(steps) {
            let numbers = key_numbers(alloc, node)?;
            self.known = Some(KeyNumbers { steps, numbers });
        }
        let Some(known) = &self.known else {
            return Ok(());
        };
        if let Some(number) = known.numbers.get(key.as_str()) {
            self.last = *number;
        }
        Ok(())
    }
}
