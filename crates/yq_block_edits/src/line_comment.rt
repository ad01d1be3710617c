//! LineComment: a comment at the end of the line of a key or dash.
ghost use Rattle.std.specs.Prelude.{◌≡◌, IfOk, string_bytes};
ghost use Rattle.yq_text.specs.Segments.{segment_of};
ghost use Rattle.yq_places.specs.PlacementViews.{held_view};
ghost use Rattle.yq_edit_rules.specs.Answers.{GivesSegments};
ghost use Rattle.yq_block_edits.specs.TextsPut.{at_path};
ghost use Rattle.yq_edit_rules.specs.CommentEdits as spec;

use std::alloc::{AllocError, Global};
use yq_documents::Path;
use yq_lookup::CutText;
use yq_places::Held;
use yq_text::{Halves, Segment, Segments};

/// The white space that ends a line: it goes where it comes before a comment that is taken away.
fn white_put<'t>(alloc: Global, text: &str, held: &Held<'t>) -> Segment<'t>
    ensures { segment_of result ≡ spec.white_put text.now (held_view held.now) }
{
    if text.is_empty() && !held.comment.is_empty() {
        Segment::Put(Halves::of(held.white), String::new(alloc))
    } else {
        Segment::Keep(Halves::of(held.white))
    }
}

/// What is written for a line comment with a text, in the place of another one, or of none.
///
/// # Errors
/// [`AllocError`] where memory is refused.
pub fn comment_written(alloc: Global, text: &str, old: &str) -> Result<String, AllocError>
    ensures { IfOk result (λ s. string_bytes s ≡ spec.comment_written text.now old.now) }
{
    if text.is_empty() {
        return Ok(String::new(alloc));
    }
    let mut out = String::with_capacity(alloc, text.len().saturating_add(3))?;
    if old.is_empty() {
        out.push(' ')?;
    }
    out.push_str("# ")?;
    out.push_str(text)?;
    Ok(out)
}

/// A line comment in the place of that on the line of a key or dash, or of none.
fn comment_put<'t>(alloc: Global, text: &str, held: &Held<'t>) -> Result<Segments<'t>, AllocError>
    ensures { IfOk result (λ ss. ss ≡ spec.comment_put text.now (held_view held.now)) }
{
    let new = comment_written(alloc, text, held.comment)?;
    let segments = vec![in alloc;
        Segment::Keep(held.before),
        Segment::Keep(Halves::of(held.space)),
        Segment::Keep(Halves::of(held.head)),
        white_put(alloc, text, held),
        Segment::Put(Halves::of(held.comment), new),
        Segment::Keep(Halves::of(held.line_break)),
        Segment::Keep(held.lines),
        Segment::Keep(Halves::of(held.last)),
        Segment::Keep(held.after),
    ]?;
    Ok(Segments::new(segments))
}

/// A line comment set at a path; `None` where no item or entry outside flow collections is there, or
/// its line isn't the last one of its row.
///
/// # Errors
/// [`AllocError`] where memory is refused.
pub fn line_comment_at<'t>(
    alloc: Global,
    cut: &CutText<'_, 't>,
    path: &Path,
    text: &str,
) -> Result<Option<Segments<'t>>, AllocError>
    ensures { GivesSegments result (at_path spec.line_comment_at path.now cut.now text.now) }
{
    let Some(held) = cut.held(path) else {
        return Ok(None);
    };
    comment_put(alloc, text, &held).map(Some)
}
