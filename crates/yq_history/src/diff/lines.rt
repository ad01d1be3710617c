//! Lines of a text: where it may be cut between two, how many there are, and how they are printed.
ghost use Rattle.yq_core.{specs.Strings.AddsText, specs.Text.text_lines};
ghost use Rattle.yq_history.{specs.Hunks.EndsInFeed, specs.DiffPrinting.marked_lines, specs.Unified.marked_line};
ghost use Rattle.std.specs.Prelude.{◌≡◌, ◌++◌, [], IfOk, true, IfSome, length};

use std::alloc::AllocError;
use yq_core::{is_line, split_line};

/// Whether a text ends with a line feed.
fn ends_in_feed(text: &[u8]) -> bool
    ensures { result ≡ true → EndsInFeed text.now }
{
    match text {
        [.., b] => *b == b'\n',
        [] => false,
    }
}

/// The text before an offset and after it, where the offset is between two lines or at an end.
pub(crate) fn split_lines<'a>(text: &'a str, at: usize) -> Option<(&'a str, &'a str)>
    ensures { IfSome result (λ x. text_lines text.now ≡
        text_lines x.0.now ++ text_lines x.1.now) }
{
    let (before, after) = text.split_at_checked(at)?;
    if before.is_empty() {
        return Some((before, after));
    }
    if after.is_empty() {
        return Some((before, after));
    }
    if ends_in_feed(before.as_bytes()) {
        return Some((before, after));
    }
    None
}

/// How many lines a text has.
pub(crate) fn count_lines(text: &str) -> usize
    ensures { result ≡ length (text_lines text.now) }
{
    let mut count = 0;
    let mut rest = text;
    'lines: while !rest.is_empty() {
        let (_, after) = split_line(rest);
        count += 1;
        rest = after;
    }
    count
}

/// Adds a line after its mark.
fn push_line(out: &mut String, mark: &str, line: &str) -> Result<(), AllocError>
    ensures { AddsText result out.old out.new (marked_line mark.now line.now) }
{
    out.push_str(mark)?;
    out.push_str(line)?;
    if !is_line(line.as_bytes()) {
        out.push_str("\n\\ No newline at end of file\n")?;
    }
    Ok(())
}

/// Adds the lines of a text, each after a mark, and answers how many there are.
pub(crate) fn push_lines(out: &mut String, mark: &str, text: &str) -> Result<usize, AllocError>
    ensures lines { AddsText result out.old out.new (marked_lines mark.now (text_lines text.now)) }
    ensures count { IfOk result (λ n. n ≡ length (text_lines text.now)) }
{
    let mut count = 0;
    let mut rest = text;
    'lines: while !rest.is_empty() {
        let (line, after) = split_line(rest);
        push_line(out, mark, line)?;
        count += 1;
        rest = after;
    }
    Ok(count)
}
