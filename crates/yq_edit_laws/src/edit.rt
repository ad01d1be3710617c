//! Edits of flow collections, by their places in the text.
ghost use Rattle.std.specs.Prelude.{◌≡◌, ◌∷◌, ◌-◌, IfOk, [], Some, drop, length, map, option_map, string_bytes, take};
ghost use Rattle.yq_text.{specs.Halves.whole, specs.Script.keep};
ghost use Rattle.yq_core.specs.Entries.{tree_step};
ghost use Rattle.yq_flow_edits.specs.FlowPlaces.{edit_view};
ghost use Rattle.yq_row_table.specs.Rows.{cut_text};
ghost use Rattle.yq_documents.specs.Reading.{cut_of};
ghost use Rattle.yq_edit_rules.specs.Answers.{GivesSegments};
ghost use Rattle.yq_places.specs.Placements as placements;
ghost use Rattle.yq_edit_laws.specs.EditPlaces as spec;

use std::alloc::{AllocError, Global};
use yq_core::Step;
use yq_flow_edits::{EditPlace, bytes_after};
use yq_lookup::CutText;
use yq_text::{Halves, Segment, Segments};

/// The steps to the collection in which a path ends, and the last one.
pub fn last_step(steps: &[Step]) -> Option<(&[Step], &Step)>
    ensures { option_map (λ x. (map tree_step x.0.now, tree_step x.1.now)) result ≡
        placements.last_step (map tree_step steps.now) }
{
    match steps {
        [] => None,
        [above @ .., last] => Some((above, last)),
    }
}

/// A text of which all bytes stay.
#[tactic(auto, using(crate::proofs::CutLaws::whole_kept))]
pub fn unchanged<'d>(alloc: Global, cut: &CutText<'_, 'd>) -> Result<Segments<'d>, AllocError>
    ensures { IfOk result (λ ss. ss ≡ keep (cut_text (cut_of cut.now)) ∷ []) }
{
    let whole = vec![in alloc; Segment::Keep(cut.text())]?;
    Ok(Segments::new(whole))
}

/// A text in which the bytes of an edit are replaced by what it leads with and to what is written; so
/// many bytes come before the part of the text in which the edit has its place.
pub(crate) fn edit_at<'d>(
    alloc: Global,
    text: Halves<'d>,
    before: usize,
    place: EditPlace,
    written: String,
) -> Result<Option<Segments<'d>>, AllocError>
    requires lies { spec.LiesIn (whole text) (spec.moved_on before (edit_view place)) }
    ensures { GivesSegments result (Some (spec.edit_segments (whole text.entry)
        (spec.moved_on before (edit_view place)) (string_bytes written))) }
{
    let (front, after) = text.split_at(before + place.end);
    let (kept, old) = front.split_at(before + place.start);
    let lead = String::from_str(alloc, place.lead)?;
    let segments = vec![in alloc;
        Segment::Keep(kept),
        Segment::Put(old, lead),
        Segment::Put(Halves::of(""), written),
        Segment::Keep(after),
    ]?;
    Ok(Some(Segments::new(segments)))
}

/// Where this text begins in one so long that ends with it.
pub(crate) fn place_in(total: usize, text: &str) -> usize
    ensures { result ≡ total - length text.now }
{
    total.saturating_sub(text.len())
}

/// What is at the place of an edit.
pub(crate) fn bytes_at(text: &str, place: EditPlace) -> &[u8]
    ensures { result.now ≡ drop place.start (take place.end text.now) }
{
    let bytes = text.as_bytes();
    if place.end <= bytes.len() {
        bytes_after(bytes.split_at(place.end).0, place.start)
    } else {
        bytes_after(bytes, place.start)
    }
}
