//! Splices: what an edit puts in the place of what.
ghost use Rattle.std.specs.Prelude.{◌≡◌, ◌↔◌, ℕ, List, Some};
ghost use Rattle.yq_text.specs.Splice.{Splice, Exchanges, change_done, all_done, flipped};

use std::marker::Model;

/// At a byte offset, the old bytes are replaced by the new ones.
#[derive(Debug, Drop)]
pub struct Splice {
    pub at: u64,
    pub old: Vec<u8>,
    pub new: Vec<u8>,
}

impl Model for Splice {
    ghost use Rattle.yq_text.specs.Splice.{Splice};

    ghost Value = { Splice };

    ghost view = { λ s. record { at = s.at; old = s.old.items; new = s.new.items } };
}

/// A splice is done exactly where its old bytes are between a front of
/// `at` bytes and a rest, and its new bytes then are between the same two.
pub fn splice_exchanges()
    ensures { (s : Splice) (b c : List ℕ) → (change_done s b ≡ Some c) ↔ Exchanges s b c }
{}

/// Splices lead from one text to another exactly where, swapped and in
/// reverse, they lead back.
pub fn splices_invert()
    ensures { (ss : List Splice) (b c : List ℕ) →
        (all_done ss b ≡ Some c) ↔ (all_done (flipped ss) c ≡ Some b) }
{}
