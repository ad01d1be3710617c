//! What holds of every edit that is given by its segments.
ghost use Rattle.std.specs.Prelude.{◌≡◌, ℕ, ◌+◌, ◌^◌, ◌<◌, List, [], ◌∷◌, ◌++◌, Some, length};
ghost use Rattle.yq_text.specs.Splice.{all_done, lengths_done};
ghost use Rattle.yq_text.specs.Script.{Segment, keep, put, old_text, new_text, changes, AllStay, kept_text, extents, outside};
ghost use Rattle.yq_text.specs.Script.{swapped_segments};

/// Done in order, the splices lead from the old text to the new one, and so
/// do their lengths.
pub fn changes_lead()
    ensures texts { (ss : List Segment) → all_done (changes ss) (old_text ss) ≡ Some (new_text ss) }
    ensures lengths { (ss : List Segment) → length (old_text ss) + length (new_text ss) < 2 ^ 64 →
        lengths_done (changes ss) (length (old_text ss)) ≡ Some (length (new_text ss)) }
{}

/// Where each segment stays as it is, so does the text, without a splice.
pub fn unchanged_stay()
    ensures text { (ss : List Segment) → AllStay ss → new_text ss ≡ old_text ss }
    ensures splices { (ss : List Segment) → AllStay ss → changes ss ≡ [] }
{}

/// The bytes outside the extents are the same in both texts, in order.
pub fn outside_stays()
    ensures old { (ss : List Segment) → outside 0 (extents 0 ss) (old_text ss) ≡ kept_text ss }
    ensures new { (ss : List Segment) → outside 0 (extents 0 (swapped_segments ss)) (new_text ss) ≡
        kept_text ss }
{}

/// Exchanges with nothing kept between them make one splice, as if they were
/// named as one; nothing that is kept makes no difference.
pub fn touching_are_one()
    ensures touching { (ss us : List Segment) (o p w x : List ℕ) →
        changes (ss ++ (put o w ∷ (put p x ∷ us))) ≡ changes (ss ++ (put (o ++ p) (w ++ x) ∷ us)) }
    ensures nothing { (ss us : List Segment) → changes (ss ++ (keep [] ∷ us)) ≡ changes (ss ++ us) }
    ensures apart { (ss us : List Segment) (t u : List ℕ) →
        changes (ss ++ (keep t ∷ (keep u ∷ us))) ≡ changes (ss ++ (keep (t ++ u) ∷ us)) }
{}
