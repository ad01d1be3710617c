//! What is written is read back: laws, each the contract of a function that does nothing. The readers
//! give each of these pieces, since they give the one piece that there is.
ghost use Rattle.std.specs.Prelude.{◌≡◌, ◌==◌, List, false, ℕ, ℤ};
ghost use Rattle.yq_core.{specs.Piece.{deeper, further_spaces}, specs.Scalar.ScalarText, specs.Text.front};
ghost use Rattle.yq_core.{specs.declared.style.Place.Place, specs.declared.style.Style.TheVariants.{Double, Single}};
ghost use Rattle.yq_scalar.specs.WrittenScalars.{CanBeLiteral, CanBePlainBefore, CanBeWritten, LiteralIsReadBack, LiteralText};
ghost use Rattle.yq_core.specs.ReadBack as spec;

/// What is written plain, before whatever ends a plain scalar in its place, is one piece there, whose
/// content is the scalar's text and has the scalar's kind.
pub fn plain_is_read_back()
    ensures { (s : ScalarText) (place : Place) (n : ℤ) (before rest : List ℕ) →
        CanBePlainBefore place (further_spaces place n) s rest →
        spec.PlainIsReadBack place n s before rest }
{}

/// What is written in single quotes, before anything but a further quote, is one piece there, whose
/// content is the string.
pub fn single_is_read_back()
    ensures { (s : ScalarText) (place : Place) (before rest : List ℕ) →
        CanBeWritten Single place s → front (λ b. b == 39) rest ≡ false →
        spec.QuotedIsReadBack Single s before rest }
{}

/// What is written in double quotes, before anything, is one piece there, whose content is the string.
pub fn double_is_read_back()
    ensures { (s : ScalarText) (place : Place) (before rest : List ℕ) →
        CanBeWritten Double place s → spec.QuotedIsReadBack Double s before rest }
{}

/// What is written as a literal block scalar, before whatever may come after one, is one piece there,
/// whose content is the string.
pub fn literal_is_read_back()
    ensures { (n : ℤ) (x : LiteralText) (before rest : List ℕ) →
        CanBeLiteral (deeper n) x rest → LiteralIsReadBack n x before rest }
{}
