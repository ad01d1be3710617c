//! Terms that are known to be the same.
ghost use Rattle.std.specs.Prelude.{◌≡◌, ◌≤◌, ◌∷◌, [], length, map, replicate, take, true};
ghost use Rattle.yq_semantics.{specs.Program.{found, path}, specs.View.{program_step, stage_of, term_of}};

use yq_semantics::{PathStep, Stage, Term};

/// Whether two steps are known to be the same.
fn is_same_step(one: &PathStep, other: &PathStep) -> bool
    ensures { result ≡ true → program_step one.now ≡ program_step other.now }
{
    match (one, other) {
        (PathStep::Key(key), PathStep::Key(other)) => key.as_str() == other.as_str(),
        (PathStep::Index(index), PathStep::Index(other)) => index == other,
        (PathStep::Each, PathStep::Each) => true,
        _ => false,
    }
}

/// Whether steps are known to be the same as others.
fn are_same_steps(steps: &[PathStep], others: &[PathStep]) -> bool
    ensures { result ≡ true → map program_step steps.now ≡ map program_step others.now }
{
    let mut rest = others;
    'steps: for step in steps {
        let [first, after @ ..] = rest else {
            return false;
        };
        if !is_same_step(step, first) {
            return false;
        }
        rest = after;
    }
    rest.is_empty()
}

/// Whether two terms are known to be the same: pipes of one path.
pub(crate) fn is_same_term(one: &Term, other: &Term) -> bool
    ensures { result ≡ true → term_of one.now ≡ term_of other.now }
{
    let (Term::Pipe(one), Term::Pipe(other)) = (one, other) else {
        return false;
    };
    let one: &[Stage] = one;
    let other: &[Stage] = other;
    match (one, other) {
        ([Stage::Path(steps)], [Stage::Path(others)]) => are_same_steps(steps, others),
        _ => false,
    }
}

/// Whether a pipe leads nowhere else.
pub(crate) fn stays(pipe: &[Stage]) -> bool
    ensures { result ≡ true → map stage_of pipe.now ≡ path [] ∷ [] }
{
    match pipe {
        [Stage::Path(steps)] => steps.is_empty(),
        _ => false,
    }
}

/// Whether a term is what is at the place itself.
fn is_here(term: &Term) -> bool
    ensures { result ≡ true → term_of term.now ≡ found (path [] ∷ []) }
{
    match term {
        Term::Pipe(pipe) => stays(pipe),
        Term::Literal(_) => false,
    }
}

/// How many of terms are, up to the first other one.
fn count_here(terms: &[Term]) -> usize
    ensures within { result ≤ length terms.now }
    ensures same { map term_of (take result terms.now) ≡ replicate result (found (path [] ∷ [])) }
{
    let mut count = 0;
    'terms: for term in terms {
        if !is_here(term) {
            return count;
        }
        count += 1;
    }
    count
}

/// How many of terms are known to be the same as one, up to the first other one.
pub(crate) fn count_same(term: &Term, terms: &[Term]) -> usize
    ensures within { result ≤ length terms.now }
    ensures same { map term_of (take result terms.now) ≡ replicate result (term_of term.now) }
{
    if is_here(term) {
        return count_here(terms);
    }
    let mut count = 0;
    'terms: for other in terms {
        if !is_same_term(other, term) {
            return count;
        }
        count += 1;
    }
    count
}
