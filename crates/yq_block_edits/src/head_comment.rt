//! HeadComment: comments on lines above a key or dash.
ghost use Rattle.yq_core.specs.Strings.{AddsText, GivesText};
ghost use Rattle.yq_semantics.specs.Meaning.{head_comment_lines};
ghost use Rattle.yq_edit_rules.specs.Answers.{GivesSegments};
ghost use Rattle.yq_block_edits.specs.TextsPut.{at_path};
ghost use Rattle.yq_edit_rules.specs.CommentEdits as spec;
ghost use Rattle.yq_block_edits.specs.TextsPut as written;

use crate::pieces::replace_piece;
use std::alloc::{AllocError, Global};
use yq_documents::Path;
use yq_lookup::CutText;
use yq_scalar::block_written::break_text;
use yq_scalar_reader::push_spaces;
use yq_text::Segments;

/// Adds a line of a head comment, with its break.
fn push_line(out: &mut String, column: usize, br: &str, text: &str) -> Result<(), AllocError>
    ensures { AddsText result out.old out.new (spec.comment_line column br.now text.now) }
{
    push_spaces(out, column)?;
    out.push('#')?;
    if !text.is_empty() {
        out.push(' ')?;
        out.push_str(text)?;
    }
    out.push_str(br)
}

/// The lines of a head comment with a text: one for each line of that.
fn head_lines(alloc: Global, column: usize, br: &str, text: &str) -> Result<String, AllocError>
    ensures { GivesText result (spec.head_lines column br.now (head_comment_lines text.now)) }
{
    if text.is_empty() {
        return Ok(String::new(alloc));
    }
    // Room for one line: with a `#`, a space and a break.
    let size = column.saturating_add(text.len()).saturating_add(4);
    let mut out = String::with_capacity(alloc, size)?;
    let mut rest = text;
    'lines: while let Some((line, after)) = rest.split_once('\n') {
        push_line(&mut out, column, br, line)?;
        rest = after;
    }
    push_line(&mut out, column, br, rest)?;
    Ok(out)
}

/// The lines of a head comment with a text, in a column; they end with the first break of the text.
///
/// # Errors
/// [`AllocError`] where memory is refused.
pub fn head_comment_written(
    alloc: Global,
    cut: &CutText<'_, '_>,
    column: usize,
    text: &str,
) -> Result<String, AllocError>
    ensures { GivesText result (written.head_comment_written column cut.now text.now) }
{
    head_lines(alloc, column, break_text(cut.first_break()), text)
}

/// A head comment set at a path; `None` where no item or entry outside flow collections is there, or
/// its line isn't the first one of its row.
///
/// # Errors
/// [`AllocError`] where memory is refused.
pub fn head_comment_at<'t>(
    alloc: Global,
    cut: &CutText<'_, 't>,
    path: &Path,
    text: &str,
) -> Result<Option<Segments<'t>>, AllocError>
    ensures { GivesSegments result (at_path spec.head_comment_at path.now cut.now text.now) }
{
    let Some((column, above)) = cut.lines_above(path) else {
        return Ok(None);
    };
    let new = head_comment_written(alloc, cut, column, text)?;
    replace_piece(alloc, &above, new).map(Some)
}
