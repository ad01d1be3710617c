//! The rows of a document that a run of removals has changed.
ghost use Rattle.std.specs.Prelude.{◌≡◌};
ghost use Rattle.yq_batch.specs.RowRemovals as spec;

/// Which rows of a document, of those that were read, a run has changed.
#[derive(Clone, Copy)]
pub(crate) struct ChangedRows {
    /// The least indentation of a block scalar after which the gap in front of them stays as it is, if that is known.
    pub(crate) least: Option<usize>,
    /// The first of them.
    pub(crate) first: usize,
    /// What is there now begins no deeper than this row did.
    pub(crate) stop: usize,
}

impl ChangedRows {
    /// What is in front of a row begins no deeper than this one did.
    pub(crate) fn stop_after(self, row: usize) -> usize
        ensures { result ≡ spec.stop_after self row }
    {
        if row == self.first { self.stop } else { row }
    }
}
