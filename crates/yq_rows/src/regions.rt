//! Regions of a text: rows and ends of parts between others, read alone.
ghost use Rattle.std.specs.Prelude.{◌≡◌, ◌<◌, ◌^◌, length, true};
ghost use Rattle.yq_core.specs.Answers.{Gives};
ghost use Rattle.yq_row_table.{specs.Slicing.read_view, specs.Meter.{count_after, line_count}, specs.Reading.all_parts};
ghost use Rattle.yq_rows.specs.RowAnswers.{GivesRegion};

use crate::meter::{Meter, count_lines};
use crate::scanning::cut;
use std::alloc::Global;
use yq_core::ReadError;
use yq_row_table::Rows;

/// The rows and ends of parts in a region of a text. Its lines are given one by one, and each is
/// counted once.
pub fn read_region<'t>(
    alloc: Global,
    text: &'t str,
    meter: &mut Meter,
) -> Result<Rows<'t>, ReadError>
    requires small { length text.now < 2 ^ 32 }
    // They are what reading from left to right gives.
    ensures exact { Gives (λ s. s) result (read_view (all_parts true text.now)) }
    // The text of items that are read alone gives these.
    ensures alone { GivesRegion text.now result }
    ensures counted { meter.new ≡ count_after (line_count text.now) meter.old }
{
    count_lines(text, meter);
    cut(alloc, text, false)
}
