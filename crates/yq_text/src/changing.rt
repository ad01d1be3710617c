//! What an edit changes of its text.
ghost use Rattle.std.{specs.Prelude.{◌≡◌, ◌<◌, ◌^◌, length}, specs.Str.IsUtf8};
ghost use Rattle.yq_text.{specs.Halves.whole, specs.Changing.Changes, specs.Segments.segments_of};
ghost use Rattle.yq_text.specs.Script as script;

use crate::Halves;
use crate::changed::ChangedMiddle;
use crate::edited::Edited;
use crate::exchanging::{build, new_len};
use crate::segment::{Segment, Segments};
use std::alloc::{AllocError, Global};

/// How many bytes a text has that is kept; they are characters.
#[tactic(auto, using(crate::proofs::LoopLaws::texts_joined))]
fn text_len(text: Halves<'_>) -> usize
    requires { length (whole text) < 2 ^ 64 }
    ensures len { result ≡ length (whole text.entry) }
    ensures text { IsUtf8 (whole text.entry) }
{
    text.front.as_bytes().len() + text.back.as_bytes().len()
}

/// How many bytes are kept in front of the first segment that is replaced, and the segments from there on.
fn from_first<'s, 't>(segments: &'s [Segment<'t>]) -> (usize, &'s [Segment<'t>])
    requires { length (script.old_text (segments_of segments.now)) < 2 ^ 64 }
    ensures front { result.0 ≡ length (script.kept_front (segments_of segments.now)) }
    ensures text { IsUtf8 (script.kept_front (segments_of segments.now)) }
    ensures rest { segments_of result.1.now ≡ script.from_first (segments_of segments.now) }
{
    let mut len = 0;
    let mut rest = segments;
    'segments: while let [segment, after @ ..] = rest {
        match segment {
            Segment::Keep(text) => len += text_len(*text),
            Segment::Put(_, _) => return (len, rest),
        }
        rest = after;
    }
    (len, rest)
}

/// The segments up to the last one that is replaced.
fn to_last<'s, 't>(segments: &'s [Segment<'t>]) -> &'s [Segment<'t>]
    ensures { segments_of result.now ≡ script.to_last (segments_of segments.now) }
{
    let mut rest = segments;
    'segments: while let [before @ .., segment] = rest {
        match segment {
            Segment::Keep(_) => rest = before,
            Segment::Put(_, _) => return rest,
        }
    }
    rest
}

/// How many bytes are kept after the last segment that is replaced; those of all segments where none does.
fn kept_back(segments: &[Segment<'_>]) -> usize
    requires { length (script.old_text (segments_of segments.now)) < 2 ^ 64 }
    ensures back { result ≡ length (script.kept_back (segments_of segments.now)) }
    ensures text { IsUtf8 (script.kept_back (segments_of segments.now)) }
{
    let mut len = 0;
    let mut rest = segments;
    'segments: while let [before @ .., segment] = rest {
        match segment {
            Segment::Keep(text) => len += text_len(*text),
            Segment::Put(_, _) => return len,
        }
        rest = before;
    }
    len
}

/// What segments change of their text, and the splices of that ([`exchange`](crate::exchange)). Bytes
/// that stay in front of all that is replaced or after it are not moved.
///
/// Nothing, where the new text would be larger than 16,777,216 bytes.
pub fn changes(alloc: Global, segments: &Segments<'_>) -> Result<Option<ChangedMiddle>, AllocError>
    requires { length (script.old_text segments.now) < 2 ^ 64 }
    ensures { Changes result segments.now }
{
    let segments = segments.segments.as_slice();
    let Some(len) = new_len(segments) else {
        return Ok(None);
    };
    let back = kept_back(segments);
    let (front, rest) = from_first(segments);
    let len = len.saturating_sub(front).saturating_sub(back);
    let Edited { text, splices } = build(alloc, to_last(rest), front, len)?;
    Ok(Some(ChangedMiddle {
        front,
        back,
        new: text,
        splices,
    }))
}
