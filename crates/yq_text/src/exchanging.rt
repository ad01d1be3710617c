//! A text made anew of its segments.
ghost use Rattle.std.specs.Prelude.{◌≡◌, ◌+◌, ◌<◌, ◌^◌, ◌++◌, ◌∷◌, List, IfOk, length};
ghost use Rattle.yq_text.{specs.Halves.whole, specs.Exchanging.{Exchanged, IsBuilt, exchange_of, within_limit}};
ghost use Rattle.yq_text.specs.Segments.{segment_of, segments_of};
ghost use Rattle.yq_text.specs.Script as script;

use crate::draft::{Draft, push_splice};
use crate::edited::Edited;
use crate::segment::{Segment, Segments};
use crate::{Halves, TEXT_LIMIT};
use std::alloc::{AllocError, Global};

/// What is in the new text for a segment.
fn new_of<'s>(segment: &'s Segment<'_>) -> Halves<'s>
    ensures { (ss : List script.Segment) →
        script.new_text (segment_of segment.now ∷ ss) ≡ whole result ++ script.new_text ss }
{
    match segment {
        Segment::Keep(text) => *text,
        Segment::Put(_, new) => Halves::of(new),
    }
}

/// How long the new text is, unless it is too large.
pub(crate) fn new_len(segments: &[Segment<'_>]) -> Option<usize>
    ensures { result ≡ within_limit (length (script.new_text (segments_of segments.now))) }
{
    let mut len = 0;
    let mut rest = segments;
    'segments: while let [segment, after @ ..] = rest {
        let new = new_of(segment);
        let left = TEXT_LIMIT - len;
        if new.front.len() > left || new.back.len() > left - new.front.len() {
            return None;
        }
        len += new.len();
        rest = after;
    }
    Some(len)
}

/// The new text of segments, which is about that long, and their splices after so many bytes.
#[tactic(auto, using(crate::proofs::BetweenLaws::after_nothing, crate::proofs::BetweenLaws::loop_kept))]
pub(crate) fn build(
    alloc: Global,
    segments: &[Segment<'_>],
    front: usize,
    len: usize,
) -> Result<Edited, AllocError>
    requires { front + length (script.new_text (segments_of segments.now)) < 2 ^ 64 }
    ensures { IfOk result (IsBuilt front (segments_of segments.now)) }
{
    let mut draft = Draft {
        text: String::with_capacity(alloc, len)?,
        splices: Vec::new(alloc),
        at: front,
        gone: Vec::new(alloc),
        come: Vec::new(alloc),
    };
    let mut rest = segments;
    'segments: while let [segment, after @ ..] = rest {
        match segment {
            Segment::Keep(kept) if kept.is_empty() => (),
            Segment::Keep(kept) => draft.keep(alloc, *kept)?,
            Segment::Put(gone, come) => draft.put(*gone, come)?,
        }
        rest = after;
    }
    let Draft {
        text,
        mut splices,
        at,
        gone,
        come,
    } = draft;
    push_splice(&mut splices, at, gone, come)?;
    Ok(Edited { text, splices })
}

/// The text that segments make of theirs, and its splices: exchanges that
/// touch are one, and one that changes no byte is none. One pass counts the
/// new text's bytes, and one moves each of them once.
///
/// Nothing, where the new text would be larger than 16,777,216 bytes.
#[tactic(auto, unfolding(crate::specs::Script::changes))]
pub fn exchange(alloc: Global, segments: &Segments<'_>) -> Result<Option<Edited>, AllocError>
    ensures { Exchanged result (exchange_of segments.now) }
{
    let segments = segments.segments.as_slice();
    let Some(len) = new_len(segments) else {
        return Ok(None);
    };
    let edited = build(alloc, segments, 0, len)?;
    Ok(Some(edited))
}
