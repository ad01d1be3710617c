//! Why a text is refused.

use std::fmt::{self, Debug, Formatter, Write};
use std::num::NonZeroU64;
use yq_failure::Failure;

/// What is at fault in a text.
#[derive(Clone, Copy, Debug, PartialEq, Eq)]
pub enum FaultKind {
    /// The bytes are not UTF-8.
    NotUtf8,
    /// A character that is not printable, or U+FEFF.
    ControlCharacter,
    /// A tab where indentation is made of spaces.
    TabIndent,
    /// A `%` in column 0 before a document.
    Directive,
    /// A tag.
    Tag,
    /// A key after `? `.
    ExplicitKey,
    /// A plain key `<<`.
    MergeKey,
    /// An absent, too long or otherwise impossible key.
    BadKey,
    /// A row at a column where none may be.
    BadIndent,
    /// An unclosed or otherwise impossible scalar.
    BadScalar,
    /// An unclosed or otherwise impossible flow collection.
    BadFlow,
    /// A block scalar header that is none, or that is where none may.
    BadBlockHeader,
    /// A key that its mapping has already.
    DuplicateKey,
    /// An alias without an earlier anchor of its name.
    UnknownAlias,
    /// An anchor on a key.
    AnchorOnKey,
    /// Content on the line of a marker, or a bare document after `...`.
    ContentOnMarkerLine,
    /// More than 64 nested collections.
    TooDeep,
    /// More than 16,777,216 bytes.
    TooLarge,
    /// A text that ends, without a break, in a block scalar.
    NoFinalBreak,
    /// A CR that no LF follows.
    CarriageReturn,
}

/// A fault, where in the text the construct at fault begins, in bytes, and its line, counted from 1.
#[derive(Clone, Copy, PartialEq, Eq)]
pub struct ReadFault {
    pub kind: FaultKind,
    pub at: usize,
    pub line: NonZeroU64,
}

impl Debug for ReadFault {
    fn fmt<W: Write>(&self, f: &mut Formatter<W>) -> fmt::Result {
        write!(f, "{:?} on line {}", self.kind, self.line)
    }
}

/// Why a text was not read.
pub type ReadError = Failure<ReadFault>;

impl From<ReadFault> for ReadError {
    ghost use Rattle.std.specs.Prelude.{◌≡◌};
    ghost use Rattle.yq_failure.specs.declared.failure.Failure.TheVariants.{Fault};

    ghost from_gives = { λ fault e. e ≡ Fault fault };

    fn from(fault: ReadFault) -> ReadError {
        ReadError::Fault(fault)
    }
}
