//! What commands show.
ghost use Rattle.std.specs.Prelude.{◌≡◌};
ghost use Rattle.yq_history.specs.Report as spec;

use std::alloc::Global;

/// What a command that is carried out shows.
#[derive(Drop)]
pub struct Report {
    /// What it prints.
    pub text: String,
    /// Whether what it was asked for is there.
    pub is_match: bool,
}

impl Report {
    /// Nothing is printed.
    pub fn nothing(alloc: Global) -> Report
        ensures { spec.report_by result ≡ spec.nothing }
    {
        Report {
            text: String::new(alloc),
            is_match: true,
        }
    }
}
