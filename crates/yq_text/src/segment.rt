//! Segments of a text.
ghost use Rattle.std.specs.Prelude.{◌≡◌, ◌++◌, ◌∷◌, [], OnOk};
ghost use Rattle.yq_text.specs.Segments.{segment_of, segments_of};

use crate::Halves;
use std::alloc::AllocError;
use std::marker::Model;

/// A segment of a text, which is in two halves.
#[derive(Drop)]
pub enum Segment<'t> {
    /// It stays.
    Keep(Halves<'t>),
    /// The first text is replaced by the second one.
    Put(Halves<'t>, String),
}

/// Segments of a text, in its order. What they keep and what is replaced is borrowed from the text, and what
/// comes is owned.
#[derive(Drop)]
pub struct Segments<'t> {
    pub(crate) segments: Vec<Segment<'t>>,
}

impl<'t> Model for Segments<'t> {
    ghost use Rattle.std.specs.Prelude.{List};
    ghost use Rattle.yq_text.specs.Script.{Segment};

    ghost Value = { List Segment };

    ghost use Rattle.yq_text.specs.Segments.{segments_of};

    ghost view = { λ s. segments_of s.segments.items };
}

impl<'t> Segments<'t> {
    /// These segments in their order.
    pub fn new(segments: Vec<Segment<'t>>) -> Segments<'t>
        ensures { result ≡ segments_of segments.entry.items }
    {
        Segments { segments }
    }

    /// Puts a segment after the others.
    pub fn push(&mut self, segment: Segment<'t>) -> Result<(), AllocError>
        ensures { OnOk result (self.new ≡ self.old ++ segment_of segment.entry ∷ []) }
    {
        self.segments.push(segment)?;
        Ok(())
    }
}
