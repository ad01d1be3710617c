//! Laws of block scalars, each the contract of a function that does nothing.
ghost use Rattle.std.specs.Prelude.{◌≡◌, ◌++◌, Bool, List, true, ℕ};
ghost use Rattle.yq_core.{specs.Block.{BlockText, IsBlock, RawLines, block_text, ends_block}, specs.BlockContent.block_content};
ghost use Rattle.yq_core.{specs.BlockReading.block_at, specs.BlockRepair.{AreGap, comment_lines, repair}};
ghost use Rattle.yq_core.{specs.declared.block_lines.TextIndent.TextIndent, specs.declared.style.Place.TheVariants.Block};
ghost use Rattle.yq_core.{specs.declared.style.Style.TheVariants.Literal, specs.OneReading.{HasOneReading, ReadsAgain, ReadsOnly}};
ghost use Rattle.yq_scalar.specs.WrittenScalars.{CanBeLiteral, CanBeWritten, LiteralText, written_literal};
ghost use Rattle.yq_scalar.specs.RepairedGaps.{MayRepair, MayRepairAfter, repaired_after};

/// What is read as a block scalar is one, each block scalar is read, and a text begins with one at
/// most.
pub fn one_block()
    ensures takes { (least : ℕ) → ReadsOnly (block_at least) block_text (IsBlock least) }
    ensures again { (least : ℕ) → ReadsAgain (block_at least) block_text (IsBlock least) }
    ensures one { (least : ℕ) → HasOneReading block_text (IsBlock least) }
{}

/// What is written for a string that can be written literal is a block scalar before any text that may
/// follow one, and means the string.
pub fn literal_spells()
    ensures block { (least : ℕ) (x : LiteralText) (rest : List ℕ) →
        CanBeLiteral least x rest → IsBlock least (written_literal x) rest }
    ensures content { (x : LiteralText) → CanBeWritten Literal Block x.scalar →
        block_content (written_literal x) ≡ x.scalar.text }
{}

/// A repaired gap may come after a block scalar, before a less indented line or the end, and its
/// comments are the same. The gap ends in a break, or the text with it.
pub fn repaired()
    ensures is_located { (least column : ℕ) (b : BlockText) (old gap rest : List ℕ) →
        IsBlock least b old → MayRepairAfter b column gap rest →
        IsBlock least b (repaired_after b column gap ++ rest) }
    ensures ends { (keep : Bool) (indent : TextIndent) (column : ℕ) (gap rest : RawLines) →
        MayRepair indent column gap rest →
        ends_block keep indent (repair keep indent.columns column gap ++ rest) ≡ true }
    ensures comments { (keep : Bool) (indent column : ℕ) (gap : RawLines) → AreGap gap →
        comment_lines (repair keep indent column gap) ≡ comment_lines gap }
{}
