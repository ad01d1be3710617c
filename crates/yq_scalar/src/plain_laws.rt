//! Laws of plain scalars, each the contract of a function that does nothing.
ghost use Rattle.std.specs.Prelude.{◌≡◌, ◌++◌, Bool, List, Option, false, true, ℕ};
ghost use Rattle.yq_core.{specs.Characters.is_text, specs.Plain.{IsPlain, holds_break, is_indicator, plain_at}};
ghost use Rattle.yq_core.{specs.Scalar.{ScalarText, plain_of}, specs.Text.{front, is_empty}, specs.Writable.in_flow};
ghost use Rattle.yq_core.{specs.declared.style.Place.Place, specs.OneReading.{HasOneReading, ReadsAgain, ReadsOnly}};
ghost use Rattle.yq_scalar.specs.WrittenScalars.{CanBePlain, CanBePlainBefore, CanBePlainText};

/// What is read as a plain scalar is one, each plain scalar is read, and a text begins with one at
/// most.
pub fn one_plain()
    ensures takes { (flow : Bool) (spaces : Option ℕ) →
        ReadsOnly (plain_at flow spaces) (λ p rest. p ++ rest) (IsPlain flow spaces) }
    ensures again { (flow : Bool) (spaces : Option ℕ) →
        ReadsAgain (plain_at flow spaces) (λ p rest. p ++ rest) (IsPlain flow spaces) }
    ensures one { (flow : Bool) (spaces : Option ℕ) →
        HasOneReading (λ p rest. p ++ rest) (IsPlain flow spaces) }
{}

/// What can be written plain is a plain scalar on one line, before whatever ends one, and its text
/// means the same kind and text.
pub fn plain_spells()
    ensures piece { (s : ScalarText) (place : Place) (spaces : Option ℕ) (rest : List ℕ) →
        CanBePlainBefore place spaces s rest → IsPlain (in_flow place) spaces s.text rest }
    ensures line { (s : ScalarText) (place : Place) →
        CanBePlainText place s → holds_break s.text ≡ false }
    ensures text { (s : ScalarText) (place : Place) →
        CanBePlainText place s → is_text s.text ≡ true }
    ensures some { (s : ScalarText) (place : Place) →
        CanBePlain place s → is_empty s.text ≡ false }

    // It begins with no indicator but a `-`.
    ensures opens { (s : ScalarText) (place : Place) (test : ℕ → Bool) → CanBePlain place s →
        ((b : ℕ) → test b ≡ true → is_indicator b ≡ true) → test 45 ≡ false →
        front test s.text ≡ false }
    ensures same { (s : ScalarText) (place : Place) → CanBePlain place s → plain_of s.text ≡ s }
{}
