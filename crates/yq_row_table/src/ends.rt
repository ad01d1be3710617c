//! Where the parts of a text end in it.
ghost use Rattle.std.specs.Prelude.{◌≡◌, ◌∷◌, ◌<◌, ◌+◌, ◌-◌, ◌^◌, ◌++◌, [], length};
ghost use Rattle.yq_row_table.{specs.Kept.moved_end, specs.Offsets.{AreCuts, Ends}, specs.View.bound_view};
ghost use Rattle.yq_row_table.specs.PartEnds.{both_shifts, measure_of, shift_between, shifted};
ghost use Rattle.yq_row_table.specs.Ends as spec;

/// The end of a part: the rows between two markers or the ends of the text.
#[derive(Clone, Copy)]
pub struct Bound<'t> {
    /// How many rows come before it, from the beginning of the text.
    pub rows: usize,
    /// The gap after the part's last row.
    pub end: &'t str,
    /// The line of the marker after that gap; after the last part there is none.
    pub marker: &'t str,
}

/// Where a part ends in its text: how many rows come before it, where the gap there begins, and how
/// long that gap and the line of the marker are, in bytes, each below the limit of a text's length,
/// which a `u32` holds.
#[derive(Clone, Copy)]
pub struct EndPlace {
    /// How many rows come before it, from the beginning of the text.
    pub rows: usize,
    pub start: u32,
    pub gap: u32,
    pub marker: u32,
}

/// What the ends of parts are in the order of.
#[derive(Clone, Copy)]
pub enum Measure {
    Rows,
    Bytes,
}

/// How many rows and bytes more come before the end of a part, each number counted from 0 on again after
/// the largest one: so fewer may come too.
#[derive(Clone, Copy)]
pub struct Shift {
    pub rows: usize,
    pub bytes: u32,
}

impl Shift {
    /// From after so many rows and bytes to after so many others.
    pub fn between(rows: usize, bytes: usize, new_rows: usize, new_bytes: usize) -> Shift
        requires from { bytes < 2 ^ 32 }
        requires to { new_bytes < 2 ^ 32 }
        ensures { result ≡ shift_between rows bytes new_rows new_bytes }
    {
        Shift {
            rows: new_rows.wrapping_sub(rows),
            bytes: (new_bytes as u32).wrapping_sub(bytes as u32),
        }
    }

    /// This one, and another one after it.
    pub(crate) fn then(self, other: Shift) -> Shift
        ensures { result ≡ both_shifts self other }
    {
        Shift {
            rows: self.rows.wrapping_add(other.rows),
            bytes: self.bytes.wrapping_add(other.bytes),
        }
    }
}

impl EndPlace {
    /// How many bytes come before the end, which begins with its gap.
    pub fn start(self) -> usize
        ensures { result ≡ self.start }
    {
        self.start as usize
    }

    /// How many bytes come before what is after its gap.
    pub fn stop(self) -> usize
        ensures { result ≡ self.start + self.gap }
    {
        self.start as usize + self.gap as usize
    }

    /// How long the line of the marker after its gap is, in bytes; after the last part there is none.
    pub fn marker(self) -> usize
        ensures { result ≡ self.marker }
    {
        self.marker as usize
    }

    /// The same end where so many rows and so many bytes come before it.
    pub fn moved(self, rows: usize, start: usize) -> EndPlace
        requires { start < 2 ^ 32 }
        ensures { result ≡ moved_end rows start self }
    {
        EndPlace {
            rows,
            start: start as u32,
            ..self
        }
    }

    /// The same end where so many rows and bytes more come before it.
    pub(crate) fn shifted(self, by: Shift) -> EndPlace
        ensures { result ≡ shifted by self }
    {
        EndPlace {
            rows: self.rows.wrapping_add(by.rows),
            start: self.start.wrapping_add(by.bytes),
            ..self
        }
    }

    /// How many rows or bytes come before it.
    pub(crate) fn measure(self, by: Measure) -> usize
        ensures { result ≡ measure_of by self }
    {
        match by {
            Measure::Rows => self.rows,
            Measure::Bytes => self.start(),
        }
    }

    /// The same end before a marker that is as long as that of another one.
    pub fn marked_as(self, other: EndPlace) -> EndPlace
        ensures { result ≡ record self { marker = other.marker } }
    {
        EndPlace {
            marker: other.marker,
            ..self
        }
    }

    /// The end in front of a text.
    pub(crate) fn bound<'t>(&self, text: &'t str) -> Bound<'t>
        requires { AreCuts text.now (self.now.gap ∷ self.now.marker ∷ []) }
        ensures { bound_view result ≡ spec.bound_at text.now self.now }
    {
        let (end, text) = text.split_at(self.gap as usize);
        Bound {
            rows: self.rows,
            end,
            marker: text.split_at(self.marker as usize).0,
        }
    }
}

/// Where a part ends in the whole text, of which this rest follows.
pub fn end_of(whole: &str, rows: usize, end: &str, marker: &str, rest: &str) -> EndPlace
    requires small { length whole.now < 2 ^ 32 }
    requires ends { Ends (end.now ++ (marker.now ++ rest.now)) whole.now }
    ensures is_located { spec.EndIsLocated whole.now result }
    ensures same { spec.bound_in whole.now result ≡
        record { rows = rows; end = end.now; marker = marker.now } }
    ensures place { result ≡ spec.end_at (length whole.now - length
        (end.now ++ (marker.now ++ rest.now))) rows end.now marker.now }
{
    EndPlace {
        rows,
        start: (whole.len() - rest.len() - marker.len() - end.len()) as u32,
        gap: end.len() as u32,
        marker: marker.len() as u32,
    }
}
