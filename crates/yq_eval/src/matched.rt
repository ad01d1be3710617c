//! Matches: copies of what a pipe finds in documents.
ghost use Rattle.std.specs.Prelude.{◌≡◌, IfOk, map, true};
ghost use Rattle.yq_nodes.specs.Nodes.{node_of};
ghost use Rattle.yq_documents.specs.Reading.{documents_of};
ghost use Rattle.yq_semantics.{specs.Conditions.value_of, specs.MatchTrees.AreMatches, specs.Program.is_read};
ghost use Rattle.yq_semantics.specs.View.{program_of, stage_of};
ghost use Rattle.yq_eval.{specs.MatchView.matches_of, specs.PlaceView.{place_of, places_of}, specs.TreeScalars.{HasScalars, HaveScalars}};
ghost use Rattle.yq_eval.specs.MatchAnswers.{JudgesMatches, AddsMatches, JudgesRead, matches_at_each, matches_below};
ghost use Rattle.yq_semantics.specs.Copies as spec;

use crate::{FoundPlace, copy_at, find};
use bumpalo::Bump;
use std::alloc::Global;
use yq_core::Value;
use yq_documents::Documents;
use yq_nodes::Node;
use yq_semantics::{ExprError, Program, Stage, Syntax, in_document};

/// A match: its document, counted from 0, and a copy of the value there, which
/// has no anchors and no comments. What is missing is null.
#[derive(Drop)]
pub struct Match {
    pub doc: usize,
    pub value: Value,
}

/// Puts the match at a place after others.
fn push_match(
    alloc: Global,
    doc: usize,
    place: &FoundPlace<'_, '_>,
    matches: &mut Vec<Match>,
) -> Result<(), ExprError>
    requires { HasScalars (value_of (place_of place.now)) }
    ensures { AddsMatches result matches.old matches.new (spec.match_at doc (place_of place.now)) }
{
    let value = copy_at(alloc, place)?;
    matches.push(Match { doc, value })?;
    Ok(())
}

/// Puts the matches at places after others.
fn push_copies(
    alloc: Global,
    doc: usize,
    places: &[FoundPlace<'_, '_>],
    matches: &mut Vec<Match>,
) -> Result<(), ExprError>
    requires { HaveScalars (places_of places.now) }
    ensures { AddsMatches result matches.old matches.new (matches_at_each doc places.now) }
{
    'places: for place in places {
        push_match(alloc, doc, place, matches)?;
    }
    Ok(())
}

/// Puts the matches of a pipe in document `doc`, which has that root, after
/// others.
fn push_found(
    alloc: Global,
    doc: usize,
    pipe: &[Stage],
    root: Node<'_, '_>,
    matches: &mut Vec<Match>,
) -> Result<(), ExprError>
    requires { HasScalars (node_of root) }
    ensures { AddsMatches result matches.old matches.new (matches_below doc pipe.now root.entry) }
{
    let bump = Bump::new(alloc);
    let places = find(alloc, &bump, doc, pipe, root)?;
    push_copies(alloc, doc, &places, matches)
}

/// The same, and a refusal is in that document.
fn push_document(
    alloc: Global,
    doc: usize,
    pipe: &[Stage],
    root: Node<'_, '_>,
    matches: &mut Vec<Match>,
) -> Result<(), ExprError>
    requires { HasScalars (node_of root) }
    ensures { AddsMatches result matches.old matches.new (matches_below doc pipe.now root.entry) }
{
    in_document(doc, push_found(alloc, doc, pipe, root, matches))
}

/// The matches of a pipe in documents.
fn pipe_matches(
    alloc: Global,
    pipe: &[Stage],
    documents: &Documents<'_>,
) -> Result<Vec<Match>, ExprError>
    ensures { JudgesMatches result (spec.matches (map stage_of pipe.now) (documents_of documents.now)) }
{
    let mut matches = Vec::new(alloc);
    'documents: for doc in 0..documents.count() {
        push_document(alloc, doc, pipe, Node::root(documents, doc), &mut matches)?;
    }
    Ok(matches)
}

/// The matches of a read in documents, document by document.
pub fn matches(
    alloc: Global,
    program: &Program,
    documents: &Documents<'_>,
) -> Result<Vec<Match>, ExprError>
    requires { is_read (program_of program.now) ≡ true }
    // The copies of what the pipe finds, or the first refusal.
    ensures exact { JudgesRead result program.now documents.now }
    // Each copy is a tree, in which the keys of a mapping differ, with no more collections nested than may be.
    ensures trees { IfOk result (λ v. AreMatches (matches_of v.items)) }
{
    let Syntax::Read(pipe) = program.syntax() else {
        return Ok(Vec::new(alloc));
    };
    documents.are_ready();
    pipe_matches(alloc, pipe, documents)
}
