//! An expression as a program, and the bytes of a file as a text.
ghost use Rattle.std.{specs.Prelude.{◌≡◌, ◌≢◌, None, Ok, IfOk, IfErr, OnErr, true}, specs.Str.is_utf8};
ghost use Rattle.yq_semantics.specs.View.{program_of};
ghost use Rattle.yq_documents.specs.Reading.{read_at};
ghost use Rattle.yq_history.specs.Causes.{IsUnreadable};
ghost use Rattle.yq_commands.{specs.CommandFaults.{FailsFor, IsOfNoCall}, specs.Editing.program_in};

use std::alloc::Global;
use yq_expr_parser::{ParseError, parse_expr};
use yq_fault::Fault;
use yq_semantics::Program;
use yq_tree::text_of;

/// The program of an expression.
#[tactic(auto, using(crate::proofs::EditingLaws::parse_refused), unfolding(crate::specs::Editing::program_in))]
pub fn parse(alloc: Global, expr: &str) -> Result<Program, Fault>
    ensures ok { IfOk result (λ p. program_in expr.now ≡ Ok (program_of p)) }
    ensures err { FailsFor (program_in expr.now) result }
    ensures inside { IfErr result IsOfNoCall }
{
    match parse_expr(alloc, expr) {
        Ok(program) => Ok(program),
        Err(ParseError::Memory) => Err(Fault::OutOfMemory),
        Err(ParseError::Fault(fault)) => Err(Fault::Expression(fault)),
    }
}

/// The text of a file's bytes, which are refused where they are no UTF-8, however many they are.
pub fn utf8_text(bytes: &[u8]) -> Result<&str, Fault>
    ensures ok { IfOk result (λ s. s.now ≡ bytes.now) }
    ensures utf8 { IfOk result (λ s. is_utf8 bytes.now ≡ true) }
    ensures err { IfErr result (IsUnreadable bytes.now) }
    ensures none { OnErr result (read_at bytes.now ≡ None) }
    ensures inside { IfErr result IsOfNoCall }
{
    match text_of(bytes) {
        Ok(text) => Ok(text),
        Err(fault) => Err(Fault::Unreadable(fault)),
    }
}
