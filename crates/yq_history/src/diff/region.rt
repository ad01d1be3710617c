//! Where two texts differ, by the splices that lead from one to the other. What these functions answer is a
//! hint: it says where to look, and each line is compared before a diff says that it stays. So numbers may
//! wrap here.
use std::alloc::{AllocError, Global};
use yq_text::Splice;

/// A range of an old text, and the range of a new one that replaces it.
#[derive(Clone, Copy)]
pub(crate) struct Region {
    pub(crate) old_from: usize,
    pub(crate) old_to: usize,
    pub(crate) new_from: usize,
    pub(crate) new_to: usize,
}

impl Region {
    /// What a splice replaces.
    fn of(splice: &Splice) -> Region {
        let at = splice.at as usize;
        Region {
            old_from: at,
            old_to: at.wrapping_add(splice.old.len()),
            new_from: at,
            new_to: at.wrapping_add(splice.new.len()),
        }
    }

    /// Whether both ranges are empty.
    fn is_empty(self) -> bool {
        self.old_from == self.old_to && self.new_from == self.new_to
    }

    /// By how much the new text is longer.
    fn growth(self) -> usize {
        let old_len = self.old_to.wrapping_sub(self.old_from);
        self.new_to
            .wrapping_sub(self.new_from)
            .wrapping_sub(old_len)
    }
}

/// A region of the first of two edits or of the second one, by its range in the text between them.
#[derive(Clone, Copy)]
struct Touched {
    from: usize,
    to: usize,
    is_first: bool,
    growth: usize,
}

impl Touched {
    /// A region of the first edit.
    fn by_first(region: Region) -> Touched {
        Touched {
            from: region.new_from,
            to: region.new_to,
            is_first: true,
            growth: region.growth(),
        }
    }

    /// A region of the second edit.
    fn by_second(region: Region) -> Touched {
        Touched {
            from: region.old_from,
            to: region.old_to,
            is_first: false,
            growth: region.growth(),
        }
    }
}

/// What two edits touch so far, one after the other: the range that is open, in the text between them; where
/// it begins in the text before both and in the text after both; and by how much either is longer up to here.
#[derive(Drop)]
struct Merging {
    regions: Vec<Region>,
    to: usize,
    old_from: usize,
    new_from: usize,
    first_growth: usize,
    second_growth: usize,
}

impl Merging {
    /// Ends the range that is open.
    fn close(&mut self) -> Result<(), AllocError> {
        let region = Region {
            old_from: self.old_from,
            old_to: self.to.wrapping_sub(self.first_growth),
            new_from: self.new_from,
            new_to: self.to.wrapping_add(self.second_growth),
        };
        if !region.is_empty() {
            self.regions.push(region)?;
        }
        Ok(())
    }

    /// Goes on with what one of the edits touches next.
    fn take(&mut self, touched: Touched) -> Result<(), AllocError> {
        if touched.from > self.to {
            self.close()?;
            self.old_from = touched.from.wrapping_sub(self.first_growth);
            self.new_from = touched.from.wrapping_add(self.second_growth);
            self.to = touched.to;
        }
        self.to = self.to.max(touched.to);
        if touched.is_first {
            self.first_growth = self.first_growth.wrapping_add(touched.growth);
        } else {
            self.second_growth = self.second_growth.wrapping_add(touched.growth);
        }
        Ok(())
    }
}

/// What is touched next, and the regions after it.
fn next_touched<'a>(
    first: &'a [Region],
    second: &'a [Region],
) -> Option<(Touched, &'a [Region], &'a [Region])> {
    match (first, second) {
        ([], []) => None,
        ([a, rest @ ..], []) => Some((Touched::by_first(*a), rest, second)),
        ([], [b, rest @ ..]) => Some((Touched::by_second(*b), first, rest)),
        ([a, first_rest @ ..], [b, second_rest @ ..]) => {
            if a.new_from <= b.old_from {
                Some((Touched::by_first(*a), first_rest, second))
            } else {
                Some((Touched::by_second(*b), first, second_rest))
            }
        }
    }
}

/// The regions of two edits, one after the other, in order.
fn merged(alloc: Global, first: &[Region], second: &[Region]) -> Result<Vec<Region>, AllocError> {
    let mut merging = Merging {
        regions: Vec::new(alloc),
        to: 0,
        old_from: 0,
        new_from: 0,
        first_growth: 0,
        second_growth: 0,
    };
    let mut first = first;
    let mut second = second;
    'touched: for _ in 0..first.len().saturating_add(second.len()) {
        let Some((touched, first_rest, second_rest)) = next_touched(first, second) else {
            break;
        };
        merging.take(touched)?;
        first = first_rest;
        second = second_rest;
    }
    merging.close()?;
    Ok(merging.regions)
}

/// The regions of splices that are done in order.
pub(crate) fn regions_of(alloc: Global, splices: &[Splice]) -> Result<Vec<Region>, AllocError> {
    match splices {
        [] => Ok(Vec::new(alloc)),
        [splice] => {
            let mut regions = Vec::new(alloc);
            regions.push(Region::of(splice))?;
            Ok(regions)
        }
        _ => {
            let (front, back) = splices.split_at(splices.len() / 2);
            let first = regions_of(alloc, front)?;
            let second = regions_of(alloc, back)?;
            merged(alloc, &first, &second)
        }
    }
}
