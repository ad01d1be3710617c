//! Plans made part by part, where the values of one update would take too much memory at once.
ghost use Rattle.std.specs.Prelude.{◌≡◌, ◌<◌, ◌≤◌, ◌-◌, IfErr, IfOk, IfSome, None, true, false, drop, length, take};
ghost use Rattle.yq_documents.specs.Reading.{documents_of};
ghost use Rattle.yq_nodes.specs.Nodes.{node_of};
ghost use Rattle.yq_eval.{specs.FoundView.found_places, specs.PlaceView.places_of, specs.TreeScalars.{HasScalars, HaveScalars}};
ghost use Rattle.yq_semantics.{specs.Judgement.{ExprError, MatchFails}, specs.Operations.operations_of, specs.View.{program_of, update_of}};
ghost use Rattle.yq_expr.{specs.DocumentPlaces.IsDocumentRoot, specs.Parts.{IsPlanPart, values_limit}};
ghost use Rattle.yq_expr.specs.PlannedUpdates.{ForUpdate, IsPartOfPlan, IsUpdateAt, ops_inside, rest_in};
ghost use Rattle.yq_expr.specs.Oversized.{EndsPart, MayReportOversized, PartGoesOn, ReportsOversized};
ghost use Rattle.yq_planner.specs.ValidChanges.{HoldValidValues, KeepValidValues};
ghost use Rattle.yq_semantics.specs.Program as spec;
ghost use Rattle.yq_failure.specs.declared.failure.Failure.TheVariants as failure;

use crate::memory::modified::count_within;
use crate::memory::weights::{VALUES_LIMIT, ValueWeight, modified, weight_at};
use crate::plans::changes::{changes_at, left};
use crate::plans::document::{DocumentPlaces, DocumentRoot};
use crate::sizes::spread::begins_large;
use bumpalo::Bump;
use std::alloc::{AllocError, Global};
use yq_documents::Documents;
use yq_eval::{FoundPlace, FoundPlaces, find};
use yq_nodes::Node;
use yq_planner::push_changes;
use yq_semantics::{ExprError, Op, Program, Syntax, Update};

/// Operations of a part of a plan, and where the next part begins.
#[derive(Drop)]
pub struct PlanPart {
    pub ops: Vec<Op>,
    /// The number of its document: how many there are, where this is the last part.
    pub doc: usize,
    /// How many places of that one come before.
    pub place: usize,
    /// Whether the operations after it begin with what no text can hold.
    pub is_oversized: bool,
}

/// The operations of a part so far, how many bytes of room are left for values, and whether the operations after
/// it are known to begin with what no text can hold.
#[derive(Drop)]
struct OpenPart {
    ops: Vec<Op>,
    room: usize,
    is_oversized: bool,
}

/// How many of some places of a document a part has, where there is room for so many bytes; and how many bytes of
/// room are left then.
fn part_count<'a, 't>(
    alloc: Global,
    update: &'a Update,
    document: &DocumentRoot<'a, 't>,
    places: &[FoundPlace<'a, 't>],
    room: usize,
) -> Result<(usize, usize), ExprError>
    requires root { HasScalars (node_of document.now.root) }
    requires scalars { HaveScalars (places_of places.now) }
    ensures some { room ≡ values_limit → IfOk result (λ x. 0 < length places.now → 0 < x.0) }
    ensures within { IfOk result (λ x. x.0 ≤ length places.now) }
    ensures err { IfErr result (λ e. e ≡ failure.Memory) }
{
    let value = match modified(update) {
        Some(right) => ValueWeight::Found(right),
        None => ValueWeight::Alike(weight_at(alloc, update, document)?),
    };
    count_within(alloc, document, value, places, room)
}

/// Some of places, from one on and before another one.
fn some_places<'a, 't>(
    alloc: Global,
    places: &[FoundPlace<'a, 't>],
    from: usize,
    to: usize,
) -> Result<FoundPlaces<'a, 't>, AllocError>
    requires order { from ≤ to }
    requires within { to ≤ length places.now }
    ensures { IfOk result (λ f. found_places f ≡
        places_of (take (to - from) (drop from places.now))) }
{
    Ok(FoundPlaces::Listed(Vec::from_slice(alloc, &places[from..to])?))
}

/// Puts the operations of an update at places of a document into a part: from a place on, as many as there is
/// room for; none, where what comes there no text can hold. The answer is the place after them, if there are more.
fn document_part<'a>(
    alloc: Global,
    update: &'a Update,
    document: DocumentRoot<'a, '_>,
    place: usize,
    part: &mut OpenPart,
) -> Result<Option<usize>, ExprError>
    requires document { IsDocumentRoot document }
    requires fresh { part.now.is_oversized ≡ false }
    ensures part { IfOk result (IsPlanPart (ops_inside document.entry update.now) place
        (operations_of part.old.ops.items) (operations_of part.new.ops.items)) }
    ensures ends { EndsPart document.entry update.now place part.old part.new result }
    ensures valid { KeepValidValues result part.old.ops.items part.new.ops.items }
    ensures fresh { IfOk result (λ o. o ≡ None → part.new.is_oversized ≡ false) }
    ensures err { IfErr result (λ e. MatchFails e (ops_inside document.entry update.now place)) }
{
    let bump = Bump::new(alloc);
    let pipe = left(update);
    let places = find(alloc, &bump, document.doc, pipe, document.root)?;
    let count = places.len();
    if count <= place {
        return Ok(None);
    }
    let left = &places[place..];
    if part.room == VALUES_LIMIT && begins_large(alloc, update, &document, left)? {
        part.is_oversized = true;
        return Ok(Some(place));
    }
    let (few, room) = part_count(alloc, update, &document, left, part.room)?;
    let end = place + few;
    let places = some_places(alloc, &places, place, end)?;
    let changes = changes_at(alloc, &DocumentPlaces { document, places }, update)?;
    push_changes(alloc, document.doc, changes, &mut part.ops)?;
    part.room = room;
    let next = if end < count { Some(end) } else { None };
    Ok(next)
}

/// The operations of a part of an update's plan.
fn part_of(
    alloc: Global,
    update: &Update,
    documents: &Documents<'_>,
    doc: usize,
    place: usize,
) -> Result<PlanPart, ExprError>
    requires { doc < length (documents_of documents.now) }
    ensures part { IfOk result (IsPartOfPlan (update_of update.now) documents.now doc place) }
    ensures valid { IfOk result (λ p. HoldValidValues p.ops.items) }
    ensures later { IfOk result (PartGoesOn doc place) }
    ensures large { MayReportOversized (update_of update.now) documents.now result }
    ensures err { IfErr result (λ e.
        MatchFails e (rest_in (update_of update.now) documents.now doc place)) }
{
    documents.are_ready();
    let mut part = OpenPart {
        ops: Vec::new(alloc),
        room: VALUES_LIMIT,
        is_oversized: false,
    };
    let mut at = doc;
    let mut place = place;
    'documents: while at < documents.count() && part.room > 0 {
        let document = DocumentRoot {
            documents,
            doc: at,
            root: Node::root(documents, at),
        };
        let next = document_part(alloc, update, document, place, &mut part)?;
        match next {
            Some(place) => {
                return Ok(PlanPart {
                    ops: part.ops,
                    doc: at,
                    place,
                    is_oversized: part.is_oversized,
                });
            }
            None => {
                at += 1;
                place = 0;
            }
        }
    }
    Ok(PlanPart {
        ops: part.ops,
        doc: at,
        place,
        is_oversized: false,
    })
}

/// The operations of a part of the plan of update `nth` of a program, counted from 0, on documents: from a
/// place of document `doc` on, as many as there is room for.
pub fn plan_part(
    alloc: Global,
    program: &Program,
    nth: usize,
    documents: &Documents<'_>,
    doc: usize,
    place: usize,
) -> Result<PlanPart, ExprError>
    requires update { nth < spec.update_count (program_of program.now) }
    requires document { doc < length (documents_of documents.now) }
    // The operations are what is left of the plan there, but for what is left after them.
    ensures part { (u : spec.Update) → IsUpdateAt nth program.now u →
        IfOk result (IsPartOfPlan u documents.now doc place) }
    // Their values are valid.
    ensures valid { IfOk result (λ p. HoldValidValues p.ops.items) }
    ensures later { IfOk result (PartGoesOn doc place) }
    // What is left after it begins with what no text can hold, where that is said.
    ensures large { ForUpdate nth program.now (λ u. IfOk result (ReportsOversized u documents.now)) }
    ensures err { (u : spec.Update) → IsUpdateAt nth program.now u →
        IfErr result (λ e. MatchFails e (rest_in u documents.now doc place)) }
{
    program.literals_hold();
    match program.syntax() {
        Syntax::Read(_) => Ok(PlanPart {
            ops: Vec::new(alloc),
            doc: documents.count(),
            place: 0,
            is_oversized: false,
        }),
        Syntax::Updates(updates) => part_of(alloc, &updates[nth], documents, doc, place),
    }
}
