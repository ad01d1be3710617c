//! Breaks and spaces, added many times.
ghost use Rattle.std.specs.Prelude.{replicate};
ghost use Rattle.yq_core.{specs.Text.feed, specs.Strings.AddsText};

use std::alloc::AllocError;

/// Adds so many LFs.
pub fn push_breaks(out: &mut String, count: usize) -> Result<(), AllocError>
    ensures { AddsText result out.old out.new (replicate count feed) }
{
    for _ in 0..count {
        out.push('\n')?;
    }
    Ok(())
}

/// Adds so many spaces.
pub fn push_spaces(out: &mut String, count: usize) -> Result<(), AllocError>
    ensures { AddsText result out.old out.new (replicate count 32) }
{
    for _ in 0..count {
        out.push(' ')?;
    }
    Ok(())
}
