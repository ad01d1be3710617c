//! Why a text is not a program, and where.
ghost use Rattle.std.specs.Prelude.{◌≤◌, length};

use yq_failure::Failure;

/// What an expression has where a text is not written as one.
#[derive(Clone, Copy, PartialEq, Eq, Debug)]
pub enum Expected {
    /// That isn't known.
    Unknown,
    Path,
    Step,
    /// A path that leads to one value.
    OneValue,
    Key,
    Value,
    Text,
    /// A mapping without a key twice.
    OtherKeys,
    Comparison,
    Operator,
    End,
    Mark(char),
}

/// What is at fault in a text that is not a program. `left` is how many bytes of the text there are from
/// the token at fault on.
#[derive(Clone, Copy, PartialEq, Eq, Debug)]
pub enum ParseFault {
    /// E1: it is not written as an expression.
    Syntax { left: usize, expected: Expected },
    /// E2: it has what only other expressions have, or nests more than 64 brackets.
    NotInProfile { left: usize },
    /// E3: a key or a compared string has a `*` or a `?`.
    Pattern { left: usize },
}

impl ParseFault {
    /// How many bytes of the text there are from the token at fault on.
    pub fn left(&self) -> usize {
        match self {
            ParseFault::Syntax { left, .. }
            | ParseFault::NotInProfile { left }
            | ParseFault::Pattern { left } => *left,
        }
    }

    /// Where the token at fault begins in the text, in bytes.
    pub fn at(&self, text: &str) -> usize
        ensures { result ≤ length text.now }
    {
        text.len().saturating_sub(self.left())
    }

    /// What an expression has there.
    pub fn expected(&self) -> Expected {
        match self {
            ParseFault::Syntax { expected, .. } => *expected,
            ParseFault::NotInProfile { .. } | ParseFault::Pattern { .. } => Expected::Unknown,
        }
    }
}

/// Why a text is not a program.
pub type ParseError = Failure<ParseFault>;
