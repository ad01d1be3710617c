//! Expressions with their programs.

use yq_args::EvalOptions;
use yq_semantics::Program;

/// An expression with its program, and the options with which that is carried out.
#[derive(Clone, Copy)]
pub struct Parsed<'e> {
    pub program: &'e Program,
    pub expr: &'e str,
    pub options: EvalOptions,
}
