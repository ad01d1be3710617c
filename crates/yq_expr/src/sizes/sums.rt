//! How large sums are that are lists or strings, known without making them.
ghost use Rattle.yq_expr.{specs.FixedPaths.IfAny, specs.SumSizes.{AddsSized, GivesSized, IsSizeIn, SumsFrom}};
ghost use Rattle.yq_eval.{specs.PlaceView.place_of, specs.TreeScalars.HasScalars};
ghost use Rattle.yq_expr.specs.SumSizes as spec;

use crate::sizes::sum_sizes::SumSize;
use crate::sizes::value_sizes::size_of_value;
use crate::terms::right_value::term_value;
use crate::terms::same_term::is_same_term;
use std::alloc::{AllocError, Global};
use yq_core::Value;
use yq_eval::FoundPlace;
use yq_semantics::{ExprError, Term};
use yq_text::TEXT_LIMIT;

/// How large a term's value is in a sum that is so large before it, or that begins with it; nothing, where the term is
/// refused.
fn size_of_term<'a, 't>(
    alloc: Global,
    doc: usize,
    term: &'a Term,
    place: &FoundPlace<'a, 't>,
    sum: Option<SumSize>,
) -> Result<Option<SumSize>, AllocError>
    requires { HasScalars (place_of place.now).node }
    ensures { IfAny result (IsSizeIn sum (spec.found_term doc place.now term.now)) }
{
    if let Term::Literal(value) = term {
        return size_of_value(alloc, value, sum);
    }
    match term_value(alloc, doc, term, place) {
        Ok(value) => size_of_value(alloc, &value, sum),
        Err(ExprError::Fault(_)) => Ok(None),
        Err(ExprError::Memory) => Err(AllocError),
    }
}

/// A sum so far.
#[derive(Clone, Copy)]
struct SumSoFar<'a> {
    /// The last term, and how large that is which the sum got from it.
    last: &'a Term,
    added: SumSize,
    total: SumSize,
}

/// How large that is which a sum gets from the next term.
fn size_of_next<'a, 't>(
    alloc: Global,
    doc: usize,
    sum: &SumSoFar<'a>,
    term: &'a Term,
    place: &FoundPlace<'a, 't>,
) -> Result<Option<SumSize>, AllocError>
    requires place { HasScalars (place_of place.now).node }
    requires last { AddsSized (spec.found_term doc place.now sum.now.last.now) sum.now.added }
    ensures { IfAny result (AddsSized (spec.found_term doc place.now term.now)) }
{
    if is_same_term(term, sum.last) {
        return Ok(Some(sum.added));
    }
    size_of_term(alloc, doc, term, place, Some(sum.total))
}

/// How large the sum of a value and of terms is, where the value is that of a term before them.
fn size_with_terms<'a, 't>(
    alloc: Global,
    doc: usize,
    first: (&'a Term, SumSize),
    terms: &'a [Term],
    place: &FoundPlace<'a, 't>,
) -> Result<Option<SumSize>, AllocError>
    requires place { HasScalars (place_of place.now).node }
    requires first { GivesSized (spec.found_term doc place.now first.0.now) first.1 }
    ensures { SumsFrom doc place.now first.entry.1 terms.now result }
{
    let mut sum = SumSoFar {
        last: first.0,
        added: first.1,
        total: first.1,
    };
    'terms: for term in terms {
        let Some(added) = size_of_next(alloc, doc, &sum, term, place)? else {
            return Ok(None);
        };
        let Some(total) = sum.total.with(&added) else {
            return Ok(None);
        };
        sum = SumSoFar {
            last: term,
            added,
            total,
        };
    }
    Ok(Some(sum.total))
}

/// How large the sum of terms is, where that is a list or a string.
#[tactic(auto, using(crate::proofs::SumLaws::sum_of_all))]
fn size_of_sum<'a, 't>(
    alloc: Global,
    doc: usize,
    terms: &'a [Term],
    place: &FoundPlace<'a, 't>,
) -> Result<Option<SumSize>, AllocError>
    requires { HasScalars (place_of place.now).node }
    ensures { IfAny result (GivesSized (spec.found_sum doc place.now terms.now)) }
{
    let [first, others @ ..] = terms else {
        return Ok(None);
    };
    match size_of_term(alloc, doc, first, place, None)? {
        Some(size) => size_with_terms(alloc, doc, (first, size), others, place),
        None => Ok(None),
    }
}

/// Whether a term is a list or a mapping.
fn is_collection(term: &Term) -> bool {
    match term {
        Term::Literal(Value::List(_) | Value::Map(_)) => true,
        Term::Literal(Value::Scalar(_)) | Term::Pipe(_) => false,
    }
}

/// Whether the sum of terms may be so large that it is worth a look before it is made, in a text of that length.
pub(crate) fn may_be_large(terms: &[Term], length: usize) -> bool {
    terms.len().saturating_mul(length) > TEXT_LIMIT || terms.iter().any(|term| is_collection(term))
}

/// How large the sum of terms is, where that is a list or a string that may be large.
pub(crate) fn sum_size<'a, 't>(
    alloc: Global,
    doc: usize,
    terms: &'a [Term],
    place: &FoundPlace<'a, 't>,
    length: usize,
) -> Result<Option<SumSize>, AllocError>
    requires { HasScalars (place_of place.now).node }
    ensures { IfAny result (GivesSized (spec.found_sum doc place.now terms.now)) }
{
    if !may_be_large(terms, length) {
        return Ok(None);
    }
    size_of_sum(alloc, doc, terms, place)
}

/// A small value that is refused where the sum of terms is, if that is a list or a string that may be large, in a text of
/// that length.
pub(crate) fn small_sum<'a, 't>(
    alloc: Global,
    doc: usize,
    terms: &'a [Term],
    place: &FoundPlace<'a, 't>,
    length: usize,
) -> Result<Option<Value>, AllocError>
    requires { HasScalars (place_of place.now).node }
    ensures { IfAny result (spec.ReplacesSum doc place.now terms.now) }
{
    let Some(size) = sum_size(alloc, doc, terms, place, length)? else {
        return Ok(None);
    };
    let small = size.small_value(alloc)?;
    Ok(Some(small))
}
