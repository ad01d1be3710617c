//! Judging: whether an update is refused on documents, with no copy of its value for each place.
ghost use Rattle.std.specs.Prelude.{◌≡◌, ◌<◌, IfOk, IfSome, List, length, true, if◌then◌else◌};
ghost use Rattle.yq_core.{specs.Anchors.names_of, specs.Values.value_node};
ghost use Rattle.yq_nodes.specs.Nodes.{node_of};
ghost use Rattle.yq_planner.{specs.Indexes.HasAliases, specs.Substitutes.IsSubstitute};
ghost use Rattle.yq_semantics.{specs.Program.update_count, specs.View.{program_of, update_of}};
ghost use Rattle.yq_expr.{specs.EffectView.{is_mapping, value_at}, specs.PlannedUpdates.{IsUpdateAt, plan_in}};
ghost use Rattle.yq_expr.specs.JudgedChanges.{HasNone, JudgesAction, JudgesEachVerdict, JudgesThere, JudgesVerdict, MaySubstitute};
ghost use Rattle.yq_expr.specs.JudgedChanges.{changes_inside, changes_of_all, with_right};
ghost use Rattle.yq_expr.specs.DocumentPlaces.{AreInDocument, IsDocumentRoot};
ghost use Rattle.yq_eval.{specs.FoundView.found_places, specs.TreeScalars.HaveScalars};
ghost use Rattle.yq_semantics.specs.Program as programs;

use crate::plans::changes::left;
use crate::plans::document::{DocumentPlaces, DocumentRoot};
use crate::plans::effect::Action;
use crate::sizes::sums::small_sum;
use crate::terms::right_value::right_value;
use crate::verdicts::judged_places::judge_found;
use bumpalo::Bump;
use std::alloc::{AllocError, Global};
use yq_core::Value;
use yq_documents::Documents;
use yq_eval::{FoundPlace, find_places};
use yq_nodes::Node;
use yq_planner::{Aliases, aliases_of, has_comment, substitute};
use yq_semantics::{
    Assignment, ExprError, Operator, Program, Refusal, Syntax, Term, Update, in_document,
};

/// Whether a value is a mapping.
fn is_mapping(value: &Value) -> bool
    ensures { result ≡ is_mapping (value_node value.now) }
{
    match value {
        Value::Map(_) => true,
        Value::Scalar(_) | Value::List(_) => false,
    }
}

/// A small value that is refused where a value is, if no alias is in the document.
fn small_entries(
    alloc: Global,
    aliases: &Aliases<'_>,
    value: &Value,
) -> Result<Option<Value>, AllocError>
    ensures small { IfOk result (λ o. IfSome o (λ w. IsSubstitute (value_node value.now)
        (value_node w))) }
    ensures free { IfOk result (λ o. IfSome o (λ _. HasNone aliases.now)) }
{
    if aliases.is_empty() {
        return substitute(alloc, value);
    }
    Ok(None)
}

/// A small value that is refused where a value is added. Only entries may overwrite others, of which an alias may
/// name an anchor.
fn small_added(
    alloc: Global,
    aliases: &Aliases<'_>,
    value: &Value,
) -> Result<Option<Value>, AllocError>
    ensures small { IfOk result (λ o. IfSome o (λ w. IsSubstitute (value_node value.now)
        (value_node w))) }
    ensures free { IfOk result (λ o. IfSome o (λ _.
        MaySubstitute (value_node value.now) aliases.now)) }
{
    if is_mapping(value) {
        return small_entries(alloc, aliases, value);
    }
    substitute(alloc, value)
}

/// A small value that is refused where a value is added, or put.
fn small_value(
    alloc: Global,
    aliases: &Aliases<'_>,
    adds: bool,
    value: &Value,
) -> Result<Option<Value>, AllocError>
    ensures small { IfOk result (λ o. IfSome o (λ w. IsSubstitute (value_node value.now)
        (value_node w))) }
    ensures free { IfOk result (λ o. IfSome o (λ _. adds ≡ true →
        MaySubstitute (value_node value.now) aliases.now)) }
{
    if adds {
        return small_added(alloc, aliases, value);
    }
    substitute(alloc, value)
}

/// Judges one value that is added, or put, at each of places of a document, which has those aliases.
fn judge_one<'a, 't>(
    alloc: Global,
    found: &DocumentPlaces<'a, 't>,
    aliases: &Aliases<'_>,
    adds: bool,
    value: &Value,
) -> Result<(), ExprError>
    requires { HaveScalars (found_places found.now.places) }
    ensures { JudgesEachVerdict aliases.now (found_places found.now.places)
        (value_at adds (value_node value.now)) result }
{
    let effect = if adds {
        Action::Add(value)
    } else {
        Action::Put(value)
    };
    judge_found(alloc, found, aliases, effect)
}

/// The same, by a small value if there is one.
fn judge_value<'a, 't>(
    alloc: Global,
    found: &DocumentPlaces<'a, 't>,
    aliases: &Aliases<'_>,
    adds: bool,
    value: &Value,
) -> Result<(), ExprError>
    requires { HaveScalars (found_places found.now.places) }
    ensures { JudgesEachVerdict aliases.now (found_places found.now.places)
        (value_at adds (value_node value.now)) result }
{
    let small = small_value(alloc, aliases, adds, value)?;
    match small {
        Some(small) => judge_one(alloc, found, aliases, adds, &small),
        None => judge_one(alloc, found, aliases, adds, value),
    }
}

/// Judges a right side that is added, or put, at each of places of a document, which has those aliases.
fn judge_right<'a, 't>(
    alloc: Global,
    found: &DocumentPlaces<'a, 't>,
    aliases: &Aliases<'_>,
    adds: bool,
    right: &'a [Term],
) -> Result<(), ExprError>
    requires places { AreInDocument found.now }
    requires aliases { HasAliases (names_of (node_of found.now.document.root)) aliases.now }
    requires some { 0 < length (found_places found.now.places) }
    ensures { JudgesVerdict result (with_right found.now adds right.now) }
{
    let from = FoundPlace::of_root(&found.document.root);
    let length = found.document.text_length();
    if let Some(small) = small_sum(alloc, found.document.doc, right, &from, length)? {
        return judge_one(alloc, found, aliases, adds, &small);
    }
    let value = right_value(alloc, found.document.doc, right, &from)?;
    judge_value(alloc, found, aliases, adds, &value)
}

/// Judges an action at each of places of a document.
fn judge_action<'a, 't>(
    alloc: Global,
    found: &DocumentPlaces<'a, 't>,
    action: Action<'a, '_>,
) -> Result<(), ExprError>
    requires { AreInDocument found.now }
    ensures { JudgesAction found.now action.entry result }
{
    if found.places.is_empty() {
        return Ok(());
    }
    let aliases = aliases_of(alloc, &found.document.root)?;
    judge_found(alloc, found, &aliases, action)
}

/// Judges an assignment by one value for all places.
fn judge_assigned<'a, 't>(
    alloc: Global,
    found: &DocumentPlaces<'a, 't>,
    adds: bool,
    assignment: &'a Assignment,
) -> Result<(), ExprError>
    requires places { AreInDocument found.now }
    requires operator { assignment.now.operator ≡ (if adds then Operator.Add else Operator.Set) }
    ensures { JudgesThere found.now (Update.Assign assignment.now) result }
{
    if found.places.is_empty() {
        return Ok(());
    }
    let aliases = aliases_of(alloc, &found.document.root)?;
    let right: &[Term] = &assignment.right;
    judge_right(alloc, found, &aliases, adds, right)
}

/// The same, of an assignment whose value is found from each place.
fn judge_modified<'a, 't>(
    alloc: Global,
    found: &DocumentPlaces<'a, 't>,
    assignment: &'a Assignment,
) -> Result<(), ExprError>
    requires places { AreInDocument found.now }
    requires operator { assignment.now.operator ≡ Operator.Modify }
    ensures { JudgesThere found.now (Update.Assign assignment.now) result }
{
    if found.places.is_empty() {
        return Ok(());
    }
    let aliases = aliases_of(alloc, &found.document.root)?;
    let right: &[Term] = &assignment.right;
    judge_found(alloc, found, &aliases, Action::Modify(right))
}

/// The same, of any update.
fn judge_at<'a, 't>(
    alloc: Global,
    found: &DocumentPlaces<'a, 't>,
    update: &'a Update,
) -> Result<(), ExprError>
    requires { AreInDocument found.now }
    ensures { JudgesThere found.now update.now result }
{
    match update {
        Update::Assign(assignment) => match assignment.operator {
            Operator::Set => judge_assigned(alloc, found, false, assignment),
            Operator::Add => judge_assigned(alloc, found, true, assignment),
            Operator::Modify => judge_modified(alloc, found, assignment),
        },
        Update::Delete(_) => judge_action(alloc, found, Action::Remove),
        Update::Comment(comment) => judge_action(alloc, found, Action::SetComment(comment)),
    }
}

/// Judges an update in a document.
fn judge_inside<'a>(
    alloc: Global,
    document: DocumentRoot<'a, '_>,
    update: &'a Update,
) -> Result<(), ExprError>
    requires { IsDocumentRoot document }
    ensures { JudgesVerdict result (changes_inside document.entry update.now) }
{
    let bump = Bump::new(alloc);
    let places = find_places(alloc, &bump, document.doc, left(update), document.root)?;
    judge_at(alloc, &DocumentPlaces { document, places }, update)
}

/// The same, and a refusal is in that document.
fn judge_in<'a>(
    alloc: Global,
    document: DocumentRoot<'a, '_>,
    update: &'a Update,
) -> Result<(), ExprError>
    requires { IsDocumentRoot document }
    ensures { JudgesVerdict result (changes_inside document.entry update.now) }
{
    in_document(document.doc, judge_inside(alloc, document, update))
}

/// Judges an update in each document, up to the first refusal.
fn judge_update(alloc: Global, update: &Update, documents: &Documents<'_>) -> Result<(), ExprError>
    ensures { JudgesVerdict result (changes_of_all update.now documents.now) }
{
    if !has_comment(update) {
        return Err(Refusal::BadCommentText.error());
    }
    documents.are_ready();
    'documents: for doc in 0..documents.count() {
        let root = Node::root(documents, doc);
        let document = DocumentRoot {
            documents,
            doc,
            root,
        };
        judge_in(alloc, document, update)?;
    }
    Ok(())
}

/// Judges the plan of an update.
fn judge_plan(alloc: Global, update: &Update, documents: &Documents<'_>) -> Result<(), ExprError>
    ensures { JudgesVerdict result (plan_in (update_of update.now) documents.now) }
{
    judge_update(alloc, update, documents)
}

/// Judges update `nth` of a program, counted from 0, on documents: either it has a plan, or it is
/// refused, with the path to the value at which it is.
pub fn judge(
    alloc: Global,
    program: &Program,
    nth: usize,
    documents: &Documents<'_>,
) -> Result<(), ExprError>
    requires { nth < update_count (program_of program.now) }
    ensures { (u : programs.Update) → IsUpdateAt nth program.now u →
        JudgesVerdict result (plan_in u documents.now) }
{
    match program.syntax() {
        Syntax::Read(_) => Ok(()),
        Syntax::Updates(updates) => judge_plan(alloc, &updates[nth], documents),
    }
}
