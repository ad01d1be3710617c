//! The keys in flow collections, as they are written.
ghost use Rattle.std.{specs.Prelude.{◌≡◌, ◌≢◌, is_none, length, nat_le, IfSome}, specs.Str.chars};
ghost use Rattle.yq_core.{specs.Spans.{HasSpans, IsSpan, PartsHaveSpans}, specs.View.{entries_end, items_end, inline_view as node_view}};
ghost use Rattle.yq_core.{specs.declared.fault.FaultKind.TheVariants.NotUtf8, specs.FitKeys.key_limit};
ghost use Rattle.yq_documents.specs.KeyReading as spec;

use yq_core::characters::char_count;
use yq_core::fault_place::fault_at;
use yq_core::{FaultKind, Form, Inline, KEY_LIMIT, Piece, ReadFault};

/// Whether a key is as short as it has to be. Characters are counted where there are more bytes than
/// that.
#[tactic(auto, using(yq_core::proofs::ShortKeys::short_by_bytes))]
fn is_short(key: &str) -> bool
    ensures { result ≡ nat_le (length (chars key.now)) key_limit }
{
    if key.len() <= KEY_LIMIT {
        return true;
    }
    char_count(key) <= KEY_LIMIT
}

/// What is at fault in the key at a place of a text: it is to be no plain `<<`, and not too long.
fn key_fault(whole: &str, piece: &Piece) -> Option<ReadFault>
    requires { IsSpan whole.now piece.now.start piece.now.end }
    ensures fits { is_none result ≡ spec.place_fits whole.now piece.now }
    ensures fault { IfSome result (λ f. f.kind ≢ NotUtf8) }
{
    let key = &whole[piece.start..piece.end];
    if key == "<<" {
        return Some(fault_at(FaultKind::MergeKey, whole.as_bytes(), piece.start));
    }
    if !is_short(key) {
        return Some(fault_at(FaultKind::BadKey, whole.as_bytes(), piece.start));
    }
    None
}

/// The first fault in the keys of a node with places in a text.
#[cycle(fits)]
pub(crate) fn keys_fault(whole: &str, node: &Inline<'_>) -> Option<ReadFault>
    requires are_there { HasSpans whole.now (node_view node.now) }
    ensures fits { is_none result ≡ spec.node_fits whole.now (node_view node.now) }
    ensures fault { IfSome result (λ f. f.kind ≢ NotUtf8) }
{
    match &node.form {
        Form::List(items) => items_fault(whole, items),
        Form::Map(entries) => entries_fault(whole, entries),
        _ => None,
    }
}

/// The same of items.
#[cycle(fits)]
fn items_fault(whole: &str, items: &Vec<Inline<'_>>) -> Option<ReadFault>
    requires are_there { PartsHaveSpans whole.now (items_end items.now.items) }
    ensures fits { is_none result ≡ spec.parts_fit whole.now (items_end items.now.items) }
    ensures fault { IfSome result (λ f. f.kind ≢ NotUtf8) }
{
    'each: for item in items {
        if let Some(fault) = keys_fault(whole, item) {
            return Some(fault);
        }
    }
    None
}

/// The same of entries.
#[cycle(fits)]
fn entries_fault(whole: &str, entries: &Vec<(String, Piece, Inline<'_>)>) -> Option<ReadFault>
    requires are_there { PartsHaveSpans whole.now (entries_end entries.now.items) }
    ensures fits { is_none result ≡ spec.parts_fit whole.now (entries_end entries.now.items) }
    ensures fault { IfSome result (λ f. f.kind ≢ NotUtf8) }
{
    'each: for entry in entries {
        if let Some(fault) = key_fault(whole, &entry.1) {
            return Some(fault);
        }
        if let Some(fault) = keys_fault(whole, &entry.2) {
            return Some(fault);
        }
    }
    None
}
