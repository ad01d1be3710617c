//! Right sides: sums of terms, from a place.
ghost use Rattle.std.specs.Prelude.{◌≡◌, ◌∷◌, ℕ, [], IfSome, map, true};
ghost use Rattle.yq_core.specs.Values.{value_node};
ghost use Rattle.yq_semantics.{specs.Judgement.{Judges, and_then}, specs.Pipes.pipe_on, specs.Places.FoundPlace as SpecPlace};
ghost use Rattle.yq_semantics.{specs.Program.path, specs.View.{stage_of, term_of}};
ghost use Rattle.yq_expr.specs.Summand.{IsSummand, found_times};
ghost use Rattle.yq_eval.{specs.PlaceView.{place_of, places_of}, specs.TreeScalars.{HasScalars, HaveScalars}};
ghost use Rattle.yq_semantics.specs.RightValues as spec;

use crate::terms::same_term::{count_same, stays};
use bumpalo::Bump;
use std::alloc::Global;
use std::slice;
use yq_core::{Kind, Scalar, Value};
use yq_eval::{FoundPlace, at_place, copy_at, pipe_on};
use yq_nodes::NodeKind;
use yq_planner::{copied, scalar_sum, sum_times};
use yq_semantics::{ExprError, Refusal, Stage, Term};

/// A copy of the value at the one place that there is.
fn only(alloc: Global, places: &[FoundPlace<'_, '_>]) -> Result<Value, ExprError>
    requires { HaveScalars (places_of places.now) }
    ensures { Judges value_node result (spec.only_copy (places_of places.now)) }
{
    match places {
        [place] => copy_at(alloc, place),
        [] => Err(Refusal::NotOneValue.error()),
        [_, second, ..] => at_place(alloc, second, Err(Refusal::NotOneValue.error())),
    }
}

/// The one value that a pipe finds, from a place in document `doc`.
fn found_value<'a, 't>(
    alloc: Global,
    doc: usize,
    pipe: &'a [Stage],
    place: &FoundPlace<'a, 't>,
) -> Result<Value, ExprError>
    requires { HasScalars (place_of place.now).node }
    ensures { Judges value_node result (and_then spec.only_copy
        (pipe_on doc (map stage_of pipe.now) (place_of place.now ∷ []))) }
{
    if stays(pipe) {
        return copy_at(alloc, place);
    }
    let bump = Bump::new(alloc);
    let mut start = Vec::with_capacity(alloc, 1)?;
    start.push(*place)?;
    let places = pipe_on(alloc, &bump, doc, pipe, start)?;
    only(alloc, &places)
}

/// The value of a term, from a place in document `doc`.
pub(crate) fn term_value<'a, 't>(
    alloc: Global,
    doc: usize,
    term: &'a Term,
    place: &FoundPlace<'a, 't>,
) -> Result<Value, ExprError>
    requires { HasScalars (place_of place.now).node }
    ensures { Judges value_node result
        (spec.term_value doc (place_of place.now) (term_of term.now)) }
{
    match term {
        Term::Literal(value) => Ok(copied(alloc, value)?),
        Term::Pipe(pipe) => found_value(alloc, doc, pipe, place),
    }
}

/// The pipe of the last term that has one.
fn last_pipe(terms: &[Term]) -> Option<&[Stage]> {
    let mut rest = terms;
    'terms: while let [front @ .., last] = rest {
        if let Term::Pipe(pipe) = last {
            return Some(pipe);
        }
        rest = front;
    }
    None
}

/// A sum of terms, or its refusal: at the value that was found last for them, if no place is known for it.
fn at_last<'a, 't>(
    alloc: Global,
    doc: usize,
    terms: &'a [Term],
    from: &FoundPlace<'a, 't>,
    sum: Result<Value, ExprError>,
) -> Result<Value, ExprError>
    ensures { result ≡ sum }
{
    match &sum {
        Err(ExprError::Fault(refused)) if refused.why() != Refusal::NotOneValue => {}
        _ => return sum,
    }
    let (Some(pipe), Ok(mut start)) = (last_pipe(terms), Vec::with_capacity(alloc, 1)) else {
        return sum;
    };
    if start.push(*from).is_err() {
        return sum;
    }
    let bump = Bump::new(alloc);
    let Ok(places) = pipe_on(alloc, &bump, doc, pipe, start) else {
        return sum;
    };
    match places.as_slice() {
        [place] => at_place(alloc, place, sum),
        _ => sum,
    }
}

/// A value with that of the last of terms added so many times.
fn with_term<'a, 't>(
    alloc: Global,
    doc: usize,
    total: Value,
    term: (&'a [Term], &'a Term, usize),
    place: &FoundPlace<'a, 't>,
) -> Result<Value, ExprError>
    requires { HasScalars (place_of place.now).node }
    ensures { Judges value_node result
        (found_times doc place.now term.entry.1.now term.entry.2 total) }
{
    let (terms, term, times) = term;
    let value = term_value(alloc, doc, term, place)?;
    at_last(
        alloc,
        doc,
        terms,
        place,
        sum_times(alloc, total, value, times),
    )
}

/// A value with those of terms added, one after the other. Terms that are known to be the same are evaluated once.
fn with_terms<'a, 't>(
    alloc: Global,
    doc: usize,
    first: Value,
    terms: &'a [Term],
    place: &FoundPlace<'a, 't>,
) -> Result<Value, ExprError>
    requires { HasScalars (place_of place.now).node }
    ensures { Judges value_node result (spec.sum_from doc (place_of place.now) (value_node first)
        (map term_of terms.now)) }
{
    let mut total = first;
    let mut rest = terms;
    'terms: while let [term, after @ ..] = rest {
        let again = count_same(term, after);
        let so_far = terms.len().saturating_sub(after.len());
        let so_far = terms.get(..so_far).unwrap_or(terms);
        total = with_term(alloc, doc, total, (so_far, term, again + 1), place)?;
        rest = &after[again..];
    }
    Ok(total)
}

/// The scalar at a place, but for null, if that is what a term finds.
fn scalar_there<'a>(term: &Term, place: &FoundPlace<'a, '_>) -> Option<(Kind, &'a str)>
    ensures { IfSome result (λ x. (doc : ℕ) → IsSummand x.0 x.1.now
        (spec.term_value doc (place_of place.now) (term_of term.now))) }
{
    let Term::Pipe(stages) = term else {
        return None;
    };
    if !stays(stages) {
        return None;
    }
    let (kind, text) = place.found()?.kind_and_text();
    match kind {
        NodeKind::Scalar(Kind::Null) => None,
        NodeKind::Scalar(kind) => Some((kind, text)),
        NodeKind::Alias | NodeKind::List | NodeKind::Map => None,
    }
}

/// The scalar that a term is, but for null, if it is a literal one.
fn scalar_literal(term: &Term) -> Option<&Scalar>
    ensures { IfSome result (λ s. (doc : ℕ) (p : SpecPlace) → IsSummand s.now.kind s.now.text
        (spec.term_value doc p (term_of term.now))) }
{
    match term {
        Term::Literal(Value::Scalar(scalar)) => {
            if scalar.kind() == Kind::Null {
                None
            } else {
                Some(scalar)
            }
        }
        Term::Literal(Value::List(_) | Value::Map(_)) | Term::Pipe(_) => None,
    }
}

/// The kind and text of a scalar at a place and a literal one, if terms are these and neither is null.
fn scalar_terms<'a>(
    terms: &'a [Term],
    place: &FoundPlace<'a, '_>,
) -> Option<(Kind, &'a str, &'a Scalar)>
    ensures { IfSome result (λ x. (doc : ℕ) →
        spec.right_value doc (map term_of terms.now) (place_of place.now) ≡
        spec.scalar_sum x.0 x.1.now x.2.now.kind x.2.now.text) }
{
    let [one, other] = terms else {
        return None;
    };
    let (kind, text) = scalar_there(one, place)?;
    let added = scalar_literal(other)?;
    Some((kind, text, added))
}

/// The value of a sum of terms, found from a place in document `doc`, counted from 0.
pub fn right_value<'a, 't>(
    alloc: Global,
    doc: usize,
    terms: &'a [Term],
    place: &FoundPlace<'a, 't>,
) -> Result<Value, ExprError>
    requires { HasScalars (place_of place.now).node }
    ensures { Judges value_node result (spec.right_value doc (map term_of terms.now)
        (place_of place.now)) }
{
    if let Some((kind, text, added)) = scalar_terms(terms, place) {
        return at_place(alloc, place, scalar_sum(alloc, kind, text, added));
    }
    let [term, others @ ..] = terms else {
        return Ok(Value::Scalar(Scalar::null(alloc)?));
    };
    let first = term_value(alloc, doc, term, place)?;
    let sum = with_terms(alloc, doc, first, others, place);
    at_last(alloc, doc, slice::from_ref(term), place, sum)
}
