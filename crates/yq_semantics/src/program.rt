//! Programs: what an expression says, as a syntax tree whose literals are values.
ghost use Rattle.std.{specs.List.list_all, specs.Prelude.◌≡◌};
ghost use Rattle.yq_semantics.specs.View.{program_of, program_step};
ghost use Rattle.yq_semantics.specs.Program as spec;

use std::marker::Model;
use yq_core::{Scalar, Value};

/// A program, known by its syntax tree. Each literal is a value as it may be written.
#[derive(Drop)]
pub struct Program {
    syntax: Syntax,
}

impl Model for Program {
    ghost use Rattle.std.specs.Coded.{codes};
    ghost use Rattle.yq_core.specs.contracts.value.Value as value;
    ghost use Rattle.yq_semantics.specs.Program as spec;
    ghost use Rattle.yq_semantics.specs.View.{program_of};
    ghost use Rattle.yq_semantics.specs.declared.program.Syntax.{Syntax};

    ghost Value = { Syntax };

    ghost coded = { Prim.hlevel (codes, value.the_row.coded) };

    ghost view = { λ p. p.syntax };

    ghost invariant = { λ p. spec.LiteralsHold (program_of p.syntax) };
}

/// The syntax tree of a program: a read, or updates that are done one after the other.
#[derive(Drop)]
pub enum Syntax {
    /// The stages of a pipe, one or more.
    Read(Vec<Stage>),
    /// One or more updates.
    Updates(Vec<Update>),
}

/// A stage of a pipe, which takes each location that it is given to others.
#[derive(Drop)]
pub enum Stage {
    /// The steps of a path: none for `.`.
    Path(Vec<PathStep>),
    /// Keeps the locations for which the condition holds.
    Select(Condition),
}

/// A step of a path.
#[derive(Debug, Drop)]
pub enum PathStep {
    /// To the value of a key.
    Key(String),
    /// To an item, counted from 0, or from -1 at the end.
    Index(i64),
    /// To each item or value.
    Each,
}

/// What `select` asks of a location.
#[derive(Drop)]
pub enum Condition {
    Compare(Comparison),
    /// A mapping there has that key.
    Has(String),
}

/// A value is compared with a scalar.
#[derive(Drop)]
pub struct Comparison {
    pub operand: Operand,
    /// `==`, and not `!=`.
    pub equal: bool,
    pub scalar: Scalar,
}

/// What is compared.
#[derive(Drop)]
pub enum Operand {
    /// The value that these steps lead to. None of them is `Each`.
    Path(Vec<PathStep>),
    /// The number of the document, from 0.
    DocumentIndex,
}

/// An update of the documents.
#[derive(Drop)]
pub enum Update {
    Assign(Assignment),
    /// Removes what the pipe finds.
    Delete(Vec<Stage>),
    Comment(Comment),
}

/// A sum of terms is assigned to each location that a pipe finds.
#[derive(Drop)]
pub struct Assignment {
    pub left: Vec<Stage>,
    pub operator: Operator,
    /// One or more.
    pub right: Vec<Term>,
}

/// How the right side of an assignment is taken.
#[derive(Clone, Copy, PartialEq, Eq)]
pub enum Operator {
    /// `=`: found from the root.
    Set,
    /// `|=`: found from the location.
    Modify,
    /// `+=`: found from the root, and added to what is there.
    Add,
}

/// A term of a sum.
#[derive(Drop)]
pub enum Term {
    Literal(Value),
    /// The value that the pipe finds.
    Pipe(Vec<Stage>),
}

/// A comment is set at each location that a pipe finds.
#[derive(Drop)]
pub struct Comment {
    pub left: Vec<Stage>,
    pub place: CommentPlace,
    pub text: String,
}

/// Where a comment is.
#[derive(Clone, Copy, PartialEq, Eq)]
pub enum CommentPlace {
    /// After the entry, on its line.
    Line,
    /// On lines of its own before the entry.
    Head,
}

fn is_single(step: &PathStep) -> bool
    ensures { result ≡ spec.is_single (program_step step.now) }
{
    !matches!(step, PathStep::Each)
}

pub fn is_index(step: &PathStep) -> bool
    ensures { result ≡ spec.is_index (program_step step.now) }
{
    matches!(step, PathStep::Index(_))
}

/// Whether each step leads to one item or value at most.
pub fn is_simple(steps: &[PathStep]) -> bool
    ensures { result ≡ list_all (λ s. spec.is_single (program_step s)) steps.now }
{
    steps.iter().all(|step| is_single(step))
}

impl Program {
    /// The program of a syntax tree whose literals are values.
    pub fn new(syntax: Syntax) -> Program
        requires { spec.LiteralsHold (program_of syntax) }
        ensures { result ≡ syntax }
    {
        Program { syntax }
    }

    /// Its syntax tree.
    pub fn syntax(&self) -> &Syntax
        ensures { result.now ≡ self.now }
    {
        &self.syntax
    }

    /// Each literal is a value as it may be written: the keys of each mapping differ, and 64
    /// collections at most are nested.
    pub fn literals_hold(&self)
        ensures { spec.LiteralsHold (program_of self.now) }
    {
        let _syntax = &self.syntax;
    }

    /// Whether it only reads.
    pub fn is_read(&self) -> bool
        ensures { result ≡ spec.is_read (program_of self.now) }
    {
        matches!(self.syntax, Syntax::Read(_))
    }

    /// How many updates it has: none if it only reads.
    pub fn updates(&self) -> usize
        ensures { result ≡ spec.update_count (program_of self.now) }
    {
        match &self.syntax {
            Syntax::Read(_) => 0,
            Syntax::Updates(updates) => updates.len(),
        }
    }
}
