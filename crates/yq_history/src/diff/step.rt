//! Steps through two texts, by whole lines. They are hints, as regions are.
use crate::diff::region::Region;
use crate::diff::trim::{begins_line, shared_back, shared_front};
use memchr::{memchr, memrchr};
use std::alloc::{AllocError, Global};

/// How many bytes stay, how many of the old text go then, and how many of the new one come.
#[derive(Clone, Copy)]
pub(crate) struct Step {
    pub(crate) kept: usize,
    pub(crate) gone: usize,
    pub(crate) come: usize,
}

/// Steps through two texts so far: where the last one ends in either, and the region that is open, which
/// begins where a line does.
#[derive(Drop)]
struct Stepping<'a> {
    old: &'a [u8],
    new: &'a [u8],
    steps: Vec<Step>,
    old_at: usize,
    new_at: usize,
    open: Region,
}

impl<'a> Stepping<'a> {
    /// Where the lines of the open region end in the old text and in the new one, in front of a limit.
    fn end(&self, limit: usize) -> Option<(usize, usize)> {
        let Region { old_to, new_to, .. } = self.open;
        if begins_line(self.old, old_to) && begins_line(self.new, new_to) {
            return Some((old_to, new_to));
        }
        let len = memchr(b'\n', self.old.get(old_to..limit)?)?.wrapping_add(1);
        Some((old_to.wrapping_add(len), new_to.wrapping_add(len)))
    }

    /// Adds the step over the open region, which ends at these places; lines that both texts have stay.
    fn close(&mut self, old_end: usize, new_end: usize) -> Result<(), AllocError> {
        let Region {
            old_from,
            new_from,
            ..
        } = self.open;
        let gone = self.old.get(old_from..old_end).unwrap_or(&[]);
        let come = self.new.get(new_from..new_end).unwrap_or(&[]);
        let front = shared_front(gone, come);
        let gone = gone.get(front..).unwrap_or(&[]);
        let come = come.get(front..).unwrap_or(&[]);
        let back = shared_back(gone, come);
        let step = Step {
            kept: old_from.wrapping_sub(self.old_at).wrapping_add(front),
            gone: gone.len().wrapping_sub(back),
            come: come.len().wrapping_sub(back),
        };
        if step.gone != 0 || step.come != 0 {
            self.steps.push(step)?;
            self.old_at = old_end.wrapping_sub(back);
            self.new_at = new_end.wrapping_sub(back);
        }
        Ok(())
    }

    /// Opens a region: it begins with its line, after what is done.
    fn open(&mut self, region: Region, done: usize) {
        let before = self.old.get(done..region.old_from).unwrap_or(&[]);
        let back = match memrchr(b'\n', before) {
            Some(place) => before.len().wrapping_sub(place).wrapping_sub(1),
            None => before.len(),
        };
        self.open = Region {
            old_from: region.old_from.wrapping_sub(back),
            new_from: region.new_from.wrapping_sub(back),
            ..region
        };
    }

    /// Goes on with a region.
    fn take(&mut self, region: Region) -> Result<(), AllocError> {
        match self.end(region.old_from) {
            Some((old_end, new_end)) => {
                self.close(old_end, new_end)?;
                self.open(region, old_end);
            }
            None => {
                self.open.old_to = region.old_to;
                self.open.new_to = region.new_to;
            }
        }
        Ok(())
    }
}

/// The steps through two texts that differ in these regions.
pub(crate) fn steps_of(
    alloc: Global,
    old: &[u8],
    new: &[u8],
    regions: &[Region],
) -> Result<Vec<Step>, AllocError> {
    let mut stepping = Stepping {
        old,
        new,
        steps: Vec::new(alloc),
        old_at: 0,
        new_at: 0,
        open: Region {
            old_from: 0,
            old_to: 0,
            new_from: 0,
            new_to: 0,
        },
    };
    'regions: for region in regions {
        stepping.take(*region)?;
    }
    let (old_end, new_end) = stepping.end(old.len()).unwrap_or((old.len(), new.len()));
    stepping.close(old_end, new_end)?;
    Ok(stepping.steps)
}
