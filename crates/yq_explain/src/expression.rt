//! Where an expression is at fault, in lines.

use crate::advice::{Advice, advice_on};
use crate::caret::{push_caret, push_name};
use crate::expected::push_expected;
use crate::rows::push_rows;
use std::alloc::{AllocError, Global};
use yq_expr_parser::{ParseError, parse_expr};
use yq_semantics::{Expected, ParseFault};

/// How many faults of an expression are mended one after the other.
const MOST: usize = 8;

/// What is advised in place of an expression, its other faults mended in the same way; nothing where that is none.
fn mended(alloc: Global, advice: Advice) -> Result<Option<String>, AllocError> {
    let mut text = advice.instead;
    'faults: for _ in 0..MOST {
        if text.is_empty() {
            return Ok(None);
        }
        let fault = match parse_expr(alloc, &text) {
            Ok(_) => return Ok(Some(text)),
            Err(ParseError::Memory) => return Ok(None),
            Err(ParseError::Fault(fault)) => fault,
        };
        let Some(next) = advice_on(alloc, &text, fault)? else {
            return Ok(None);
        };
        text = next.instead;
    }
    Ok(None)
}

/// Adds what can be done about an expression that is refused; where neither that nor what was expected
/// is known, what the code means.
fn push_advice(
    alloc: Global,
    out: &mut String,
    expr: &str,
    fault: ParseFault,
    code: &str,
) -> Result<(), AllocError> {
    match advice_on(alloc, expr, fault)? {
        Some(advice) => {
            out.push_str(advice.what)?;
            if let Some(text) = mended(alloc, advice)? {
                out.push_str(": ")?;
                push_name(out, &text)?;
            }
            out.push('\n')
        }
        None if fault.expected() == Expected::Unknown => push_rows(out, code, false).map(|_| ()),
        None => Ok(()),
    }
}

/// Where an expression is at fault, in lines: its line with a caret below the token at fault, what was
/// expected there, and what can be done. `code` is that of the fault.
pub fn expression_lines(
    alloc: Global,
    expr: &str,
    fault: ParseFault,
    code: &str,
) -> Result<String, AllocError> {
    let mut out = String::new(alloc);
    push_caret(&mut out, expr, fault.at(expr))?;
    push_expected(&mut out, fault.expected())?;
    push_advice(alloc, &mut out, expr, fault, code)?;
    Ok(out)
}
