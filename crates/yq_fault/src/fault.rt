//! Why a command is refused.

use crate::named::NamedRefusal;
use std::error::Error;
use std::fmt::{self, Debug, Display, Formatter, Write};
use yq_args::UsageCause;
use yq_core::{FaultKind, ReadFault};
use yq_journal::JournalFault;
use yq_semantics::{ParseFault, Refusal};

/// Why a command is refused. Its text is the line that the program prints.
#[derive(Drop)]
pub enum Fault {
    Usage(UsageCause),
    Expression(ParseFault),
    /// S1: no file has the name.
    NotThere,
    /// S2: the store didn't read.
    ReadFailed,
    /// S3: the store didn't write.
    WriteFailed,
    /// S4: the output didn't take what was put to it.
    OutFailed,
    Journal(JournalFault),
    Unreadable(ReadFault),
    Refused(NamedRefusal),
    OutOfMemory,
}

impl Display for Fault {
    fn fmt<W: Write>(&self, f: &mut Formatter<W>) -> fmt::Result {
        match self {
            Fault::Unreadable(fault) => {
                let (number, words) = numbered(fault.kind);
                write!(f, "{number} line {}: {words}", fault.line)
            }
            Fault::Journal(fault) => Display::fmt(fault, f),
            fault => f.write_str(line_of(fault)),
        }
    }
}

impl Debug for Fault {
    fn fmt<W: Write>(&self, f: &mut Formatter<W>) -> fmt::Result {
        Display::fmt(self, f)
    }
}

impl Error for Fault {}

/// The line of a fault; of one of reading its words alone, without its number and place, and of one of a
/// journal none.
fn line_of(fault: &Fault) -> &'static str {
    match fault {
        Fault::Usage(_) => "U1 usage",
        Fault::Expression(ParseFault::Syntax { .. }) => "E1 syntax",
        Fault::Expression(ParseFault::NotInProfile { .. }) => "E2 not in profile",
        Fault::Expression(ParseFault::Pattern { .. }) => "E3 pattern",
        Fault::NotThere => "S1 not there",
        Fault::ReadFailed => "S2 read failed",
        Fault::WriteFailed => "S3 write failed",
        Fault::OutFailed => "S4 out failed",
        Fault::Journal(_) => "",
        Fault::Unreadable(fault) => numbered(fault.kind).1,
        Fault::Refused(refused) => refusal_line(refused.why),
        Fault::OutOfMemory => "M1 out of memory",
    }
}

/// The line of a refusal.
fn refusal_line(why: Refusal) -> &'static str {
    match why {
        Refusal::NotAMap => "X1 not a map",
        Refusal::NotASequence => "X2 not a sequence",
        Refusal::IndexOutOfRange => "X3 index out of range",
        Refusal::ThroughAlias => "X4 through alias",
        Refusal::AnchorInUse => "X5 anchor in use",
        Refusal::NotOneValue => "X6 not one value",
        Refusal::KindMismatch => "X7 kind mismatch",
        Refusal::IntegerRange => "X8 integer range",
        Refusal::FloatArithmetic => "X9 float arithmetic",
        Refusal::NoPlaceForComment => "X10 no place for comment",
        Refusal::BadCommentText => "X11 bad comment text",
        Refusal::RootDelete => "X12 root delete",
        Refusal::TooDeep => "X13 too deep",
        Refusal::TooLarge => "X14 too large",
        Refusal::NotAnUpdate => "X15 not an update",
        Refusal::KeyTooLong => "X16 key too long",
    }
}

/// The number and the words of a fault of reading.
fn numbered(kind: FaultKind) -> (&'static str, &'static str) {
    match kind {
        FaultKind::NotUtf8 => ("Y1", "not utf8"),
        FaultKind::ControlCharacter => ("Y2", "control character"),
        FaultKind::TabIndent => ("Y3", "tab indent"),
        FaultKind::Directive => ("Y4", "directive"),
        FaultKind::Tag => ("Y5", "tag"),
        FaultKind::ExplicitKey => ("Y6", "explicit key"),
        FaultKind::MergeKey => ("Y7", "merge key"),
        FaultKind::BadKey => ("Y8", "bad key"),
        FaultKind::BadIndent => ("Y9", "bad indent"),
        FaultKind::BadScalar => ("Y10", "bad scalar"),
        FaultKind::BadFlow => ("Y11", "bad flow"),
        FaultKind::BadBlockHeader => ("Y12", "bad block header"),
        FaultKind::DuplicateKey => ("Y13", "duplicate key"),
        FaultKind::UnknownAlias => ("Y14", "unknown alias"),
        FaultKind::AnchorOnKey => ("Y15", "anchor on key"),
        FaultKind::ContentOnMarkerLine => ("Y16", "content on marker line"),
        FaultKind::TooDeep => ("Y17", "too deep"),
        FaultKind::TooLarge => ("Y18", "too large"),
        FaultKind::NoFinalBreak => ("Y19", "no final break"),
        FaultKind::CarriageReturn => ("Y20", "carriage return"),
    }
}
