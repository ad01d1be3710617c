//! Whether the operations of an update would take too much memory at once.
ghost use Rattle.std.specs.Prelude.{◌≡◌, ◌<◌, IfErr, IfOk, Some, length, true};
ghost use Rattle.yq_nodes.specs.Nodes.{node_of};
ghost use Rattle.yq_semantics.{specs.Program.{update_at, update_count}, specs.View.program_of, specs.Judgement.ExprError};
ghost use Rattle.yq_eval.specs.TreeScalars.{HasScalars};
ghost use Rattle.yq_expr.specs.Parts.{IsInOrder};
ghost use Rattle.yq_semantics.specs.Program as spec;
ghost use Rattle.yq_failure.specs.declared.failure.Failure.TheVariants as failure;

use crate::memory::modified::are_many;
use crate::memory::path_weights::{has_each, most_of_path, paths_weight};
use crate::memory::weights::{
    ADDITION_WEIGHT, SCALAR_WEIGHT, VALUES_LIMIT, assignment, sole_weight, weight, weight_at,
};
use crate::plans::changes::left;
use crate::plans::document::DocumentRoot;
use bumpalo::Bump;
use memchr::memchr_iter;
use std::alloc::Global;
use yq_documents::Documents;
use yq_eval::{FoundPlaces, find_places};
use yq_nodes::Node;
use yq_semantics::{Assignment, ExprError, Operator, Program, Stage, Syntax, Term, Update};

/// How many bytes a key of a text has at most.
const KEY_MOST: usize = 4096;

/// What a text has at most.
#[derive(Clone, Copy)]
struct Most {
    /// How many bytes there are.
    length: usize,
    /// How many places steps lead to.
    places: usize,
    /// How many bytes a key has.
    key: usize,
}

impl Most {
    /// What documents have at most to which a pipe leads: an item takes two bytes or more, with its dash or comma, and
    /// so does an entry; without `[]` there is one place in a document.
    fn of_documents(documents: &Documents<'_>, pipe: &[Stage]) -> Most {
        let length = documents.text().len();
        Most {
            length,
            places: if has_each(pipe) {
                length / 2 + 1
            } else {
                documents.count()
            },
            key: KEY_MOST.min(length),
        }
    }

    /// What a text has at most: between two places to which the same number of steps leads there is a comma or a
    /// break, and a key is in one line.
    fn of_text(text: &[u8]) -> Most {
        let mut places = memchr_iter(b',', text).count().saturating_add(1);
        let mut line = 0usize;
        let mut start = 0usize;
        'breaks: for end in memchr_iter(b'\n', text) {
            places = places.saturating_add(1);
            line = line.max(end.saturating_sub(start));
            start = end;
        }
        Most {
            length: text.len(),
            places,
            key: KEY_MOST.min(line.max(text.len().saturating_sub(start))),
        }
    }

    /// How many bytes the value of a term takes at most, more or less.
    fn of_term(self, term: &Term) -> usize {
        match term {
            Term::Literal(value) => weight(value),
            Term::Pipe(_) => self.length.saturating_mul(SCALAR_WEIGHT),
        }
    }

    /// How many bytes the values of a right side take at most, more or less, that are one for each place.
    fn of_values(self, right: &[Term]) -> usize {
        let mut sum = ADDITION_WEIGHT;
        'terms: for term in right {
            sum = sum.saturating_add(self.of_term(term));
        }
        sum.saturating_mul(self.places)
    }

    /// The same of values that are found from each place: no two places hold one node, so that what a term finds
    /// from all of them is no more than the text.
    fn of_found(self, right: &[Term]) -> usize {
        let mut sum = 0usize;
        'terms: for term in right {
            let most = match term {
                Term::Literal(value) => weight(value).saturating_mul(self.places),
                Term::Pipe(_) => self.of_term(term),
            };
            sum = sum.saturating_add(most);
        }
        sum
    }

    /// How many bytes the values of an assignment take at most, and its paths, more or less.
    fn of_assignment(self, assignment: &Assignment) -> (usize, usize) {
        let values = match assignment.operator {
            Operator::Modify => self.of_found(&assignment.right),
            Operator::Set | Operator::Add => self.of_values(&assignment.right),
        };
        let path = most_of_path(&assignment.left, self.key);
        (values, path.saturating_mul(self.places))
    }
}

/// How many bytes the values of an assignment take at most in documents, more or less, where they could take too many
/// with its paths.
fn too_many(assignment: &Assignment, documents: &Documents<'_>) -> Option<usize> {
    let most = Most::of_documents(documents, &assignment.left);
    let (values, paths) = most.of_assignment(assignment);
    if values.saturating_add(paths) <= VALUES_LIMIT {
        return None;
    }
    let most = Most::of_text(documents.text().as_bytes());
    let (values, paths) = most.of_assignment(assignment);
    if values.saturating_add(paths) <= VALUES_LIMIT {
        return None;
    }
    Some(values)
}

/// The places of an update in a document: how many there are, and how many bytes their paths take.
#[derive(Clone, Copy)]
struct PlaceWeights {
    count: usize,
    paths: usize,
}

/// The places of an update in a document; nothing, where it is refused.
fn place_weights<'a>(
    alloc: Global,
    update: &'a Update,
    document: &DocumentRoot<'a, '_>,
) -> Result<Option<PlaceWeights>, ExprError>
    ensures { IfErr result (λ e. e ≡ failure.Memory) }
{
    let bump = Bump::new(alloc);
    match find_places(alloc, &bump, document.doc, left(update), document.root) {
        Ok(places) => Ok(Some(PlaceWeights {
            count: match &places {
                FoundPlaces::Listed(places) => places.len(),
                FoundPlaces::Children(parent) => parent.node.count(),
            },
            paths: paths_weight(&places),
        })),
        Err(ExprError::Fault(_)) => Ok(None),
        Err(ExprError::Memory) => Err(ExprError::Memory),
    }
}

/// How many bytes the values of an update take that are made for such places of a document, of the first one but
/// for one of them.
fn values_weight<'a>(
    alloc: Global,
    update: &'a Update,
    document: &DocumentRoot<'a, '_>,
    count: usize,
) -> Result<usize, ExprError>
    requires { HasScalars (node_of document.now.root) }
    ensures { IfErr result (λ e. e ≡ failure.Memory) }
{
    if count == 0 {
        return Ok(0);
    }
    if document.doc == 0 && count == 1 {
        return Ok(sole_weight(alloc, update, document)?);
    }
    let others = if document.doc == 0 { count - 1 } else { count };
    let weight = weight_at(alloc, update, document)?;
    Ok(weight.saturating_mul(others))
}

/// Whether the paths of an update, and its values if these are to be counted, take more than there is room for.
fn take_more<'a>(
    alloc: Global,
    update: &'a Update,
    documents: &Documents<'_>,
    with_values: bool,
    room: usize,
) -> Result<bool, ExprError>
    ensures { IfErr result (λ e. e ≡ failure.Memory) }
{
    let mut sum = 0usize;
    'documents: for doc in 0..documents.count() {
        let root = Node::root(documents, doc);
        let document = DocumentRoot {
            documents,
            doc,
            root,
        };
        let Some(places) = place_weights(alloc, update, &document)? else {
            break;
        };
        if with_values {
            let values = values_weight(alloc, update, &document, places.count)?;
            sum = sum.saturating_add(values);
        }
        sum = sum.saturating_add(places.paths);
    }
    Ok(sum > room)
}

/// Whether the operations of update `nth` of a program, counted from 0, would take so much memory on
/// these documents that its plan has to be made in parts.
pub fn is_heavy(
    alloc: Global,
    program: &Program,
    nth: usize,
    documents: &Documents<'_>,
) -> Result<bool, ExprError>
    requires { nth < spec.update_count (program_of program.now) }
    // Such an update has its operations in the order of its places.
    ensures heavy { result ≡ Ok true → (u : spec.Update) →
        update_at nth (program_of program.now) ≡ Some u → IsInOrder u }
    ensures err { IfErr result (λ e. e ≡ failure.Memory) }
{
    let Syntax::Updates(updates) = program.syntax() else {
        return Ok(false);
    };
    let update = &updates[nth];
    let Some(assignment) = assignment(update) else {
        return Ok(false);
    };
    let Some(values) = too_many(assignment, documents) else {
        return Ok(false);
    };
    if values <= VALUES_LIMIT
        && !take_more(alloc, update, documents, false, VALUES_LIMIT - values)?
    {
        return Ok(false);
    }
    match assignment.operator {
        Operator::Modify => are_many(alloc, assignment, documents, VALUES_LIMIT),
        Operator::Set | Operator::Add => { take_more(alloc, update, documents, true, VALUES_LIMIT) }
    }
}
