//! Hunks, printed part by part.
ghost use Rattle.yq_core.specs.Strings.{AddsText};
ghost use Rattle.yq_history.specs.DiffPrinting.{ranges_line, open_after, open_of, opened, print_closed, print_ended, print_parts};
ghost use Rattle.yq_history.{specs.DiffParts.{new_part, old_part, new_parts, old_parts}, specs.Unified.print_range};
ghost use Rattle.std.specs.Prelude.{◌≡◌, ◌+◌, ◌-◌, ◌<◌, ◌≤◌, ◌^◌, OnOk, length};

use crate::diff::lines::{count_lines, push_lines};
use crate::diff::part::Part;
use std::alloc::{AllocError, Global};

/// What is printed of the lines of a hunk, and the numbers of lines that the line above them has.
#[derive(Drop)]
pub(crate) struct OpenHunk {
    old_before: usize,
    new_before: usize,
    old_at: usize,
    new_at: usize,
    body: String,
}

/// Adds where lines of a text begin, and how many they are.
fn push_range(
    alloc: Global,
    out: &mut String,
    before: usize,
    count: usize,
) -> Result<(), AllocError>
    requires { before + count < 2 ^ 64 }
    ensures { AddsText result out.old out.new (print_range before count) }
{
    let first = if count == 0 { before } else { before + 1 };
    out.push_str(&first.to_string(alloc)?)?;
    if count != 1 {
        out.push_str(",")?;
        out.push_str(&count.to_string(alloc)?)?;
    }
    Ok(())
}

impl OpenHunk {
    /// No line is printed yet.
    fn opened(alloc: Global, old_before: usize, new_before: usize) -> OpenHunk
        ensures { open_of result ≡ opened old_before new_before }
    {
        OpenHunk {
            old_before,
            new_before,
            old_at: old_before,
            new_at: new_before,
            body: String::new(alloc),
        }
    }

    /// Adds the line above the lines of the hunk.
    fn push_ranges(&self, alloc: Global, out: &mut String) -> Result<(), AllocError>
        requires old { self.now.old_before ≤ self.now.old_at }
        requires new { self.now.new_before ≤ self.now.new_at }
        ensures { AddsText result out.old out.new (ranges_line (open_of self.now)) }
    {
        let old_count = self.old_at.saturating_sub(self.old_before);
        let new_count = self.new_at.saturating_sub(self.new_before);
        out.push_str("@@ -")?;
        push_range(alloc, out, self.old_before, old_count)?;
        out.push_str(" +")?;
        push_range(alloc, out, self.new_before, new_count)?;
        out.push_str(" @@\n")
    }

    /// Adds the hunk, if it has lines.
    fn push_closed(&self, alloc: Global, out: &mut String) -> Result<(), AllocError>
        requires old { self.now.old_before ≤ self.now.old_at }
        requires new { self.now.new_before ≤ self.now.new_at }
        ensures { AddsText result out.old out.new (print_closed (open_of self.now)) }
    {
        if self.body.is_empty() {
            return Ok(());
        }
        self.push_ranges(alloc, out)?;
        out.push_str(&self.body)
    }

    /// Goes on with a part; the hunk ends where the part is skipped.
    fn take(&mut self, alloc: Global, out: &mut String, part: Part<'_>) -> Result<(), AllocError>
        requires old { self.old.old_at + length (old_part part) < 2 ^ 64 }
        requires new { self.old.new_at + length (new_part part) < 2 ^ 64 }
        requires old_order { self.old.old_before ≤ self.old.old_at }
        requires new_order { self.old.new_before ≤ self.old.new_at }
        ensures printed { AddsText result out.old out.new (print_ended (open_of self.old) part.entry) }
        ensures open { OnOk result (open_of self.new ≡ open_after (open_of self.old) part.entry) }
    {
        match part {
            Part::Skipped(text) => {
                let count = count_lines(text);
                self.push_closed(alloc, out)?;
                *self = OpenHunk::opened(alloc, self.old_at + count, self.new_at + count);
            }
            Part::Unchanged(text) => {
                let count = push_lines(&mut self.body, " ", text)?;
                self.old_at += count;
                self.new_at += count;
            }
            Part::Deleted(text) => self.old_at += push_lines(&mut self.body, "-", text)?,
            Part::Added(text) => self.new_at += push_lines(&mut self.body, "+", text)?,
        }
        Ok(())
    }
}

/// Adds the hunks of parts.
pub(crate) fn push_hunks(
    alloc: Global,
    out: &mut String,
    parts: &[Part<'_>],
) -> Result<(), AllocError>
    requires old { length (old_parts parts.now) < 2 ^ 64 }
    requires new { length (new_parts parts.now) < 2 ^ 64 }
    ensures { AddsText result out.old out.new (print_parts (opened 0 0) parts.now) }
{
    let mut hunk = OpenHunk::opened(alloc, 0, 0);
    'parts: for part in parts {
        hunk.take(alloc, out, *part)?;
    }
    hunk.push_closed(alloc, out)
}
