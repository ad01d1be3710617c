//! The pieces of inline nodes, read one after the other.
ghost use Rattle.std.{specs.Prelude.{◌≡◌, ◌≢◌, ◌<◌, ◌≤◌, IfErr, IfOk, length, true}, specs.List.prefix_len};
ghost use Rattle.yq_core.{specs.Answers.ReadsAs, specs.Quoted.IsQuotedText, specs.declared.fault.FaultKind.TheVariants.NotUtf8};
ghost use Rattle.yq_inline.specs.InlineAnswers.{ReadsSlices};
ghost use Rattle.yq_core.specs.Nodes as nodes;
ghost use Rattle.yq_core.specs.PlacedReading as reading;
ghost use Rattle.yq_core.specs.Reading as spec;
ghost use Rattle.yq_core.specs.Scalars as scalars;

use crate::fault::flow_fault;
use crate::lead::read_gap;
use crate::short::{short_key, short_sep};
use yq_core::fault_place::fault;
use yq_core::text::{is_white, separates, split_white};
use yq_core::{FaultKind, ReadFault, first_is, is_quoted, strip};
use yq_scalar_reader::plain::{begins_plain, holds_break, is_flow_indicator, split_plain};
use yq_scalar_reader::quoted::split_quoted;

/// Whether a name holds this byte.
fn in_name(b: u8) -> bool
    ensures { result ≡ nodes.in_name b }
{
    !(is_white(b) || matches!(b, b'\n' | b'\r') || is_flow_indicator(b))
}

/// How long the name in front is, in bytes.
pub fn name_len(text: &[u8]) -> usize
    ensures { result ≡ prefix_len nodes.in_name text.now }
{
    text.iter().take_while(|b| in_name(**b)).count()
}

/// The name of an anchor or alias in front, and what follows it.
#[tactic(auto, unfolding(yq_core::specs::Reading::name_at), using(yq_core::proofs::Upto::upto_unless, yq_core::proofs::Bounds::name_none))]
pub fn read_name<'t>(whole: &str, text: &'t str) -> Result<(&'t str, &'t str), ReadFault>
    ensures read { ReadsAs (λ x. (x.0.now, x.1.now)) result (spec.name_at text.now) }
    ensures shorter { IfOk result (λ x. length x.1.now ≤ length text.now) }
    ensures fault { IfErr result (λ f. f.kind ≢ NotUtf8) }
{
    let n = name_len(text.as_bytes());
    if n == 0 {
        return Err(fault(FaultKind::BadScalar, whole, text));
    }
    Ok(text.split_at(n))
}

/// Whether a scalar may begin in front.
#[inline(always)]
pub fn begins_scalar(flow: bool, text: &[u8]) -> bool
    ensures { result ≡ scalars.begins_scalar flow text.now }
{
    is_quoted(text) || begins_plain(flow, text)
}

/// Whether an alias, a scalar or a collection may begin in front.
#[inline(always)]
pub fn begins_content(flow: bool, text: &[u8]) -> bool
    ensures { result ≡ nodes.begins_content flow text.now }
{
    first_is(b'*', text)
        || first_is(b'[', text)
        || first_is(b'{', text)
        || begins_scalar(flow, text)
}

/// Which fault to name where no node begins with this text, if nothing else is known.
pub fn no_node(text: &[u8], otherwise: FaultKind) -> FaultKind
    requires { otherwise ≢ NotUtf8 }
    ensures { result ≢ NotUtf8 }
{
    match text {
        [b'!', ..] => FaultKind::Tag,
        [b'?', ..] => FaultKind::ExplicitKey,
        _ => otherwise,
    }
}

/// Why no key begins with this text.
fn no_key(text: &[u8]) -> FaultKind
    ensures { result ≢ NotUtf8 }
{
    match text {
        [] | [b',' | b']' | b'}', ..] => FaultKind::BadFlow,
        [b'&', ..] => FaultKind::AnchorOnKey,
        [b'*' | b'[' | b'{' | b':', ..] => FaultKind::BadKey,
        _ => no_node(text, FaultKind::BadScalar),
    }
}

/// The quoted scalar in front, and what follows it; without a number of spaces it has one line.
#[inline(always)]
fn read_quoted<'t>(
    spaces: Option<usize>,
    whole: &str,
    text: &'t str,
) -> Result<(&'t str, &'t str), ReadFault>
    ensures read { ReadsAs (λ x. (x.0.now, x.1.now)) result (spec.in_quotes_at spaces text.now) }
    ensures quoted { IfOk result (λ x. IsQuotedText x.0.now) }
    ensures fault { IfErr result (λ f. f.kind ≢ NotUtf8) }
{
    match split_quoted(text) {
        Ok((piece, rest)) if spaces.is_some() || !holds_break(piece) => Ok((piece, rest)),
        Ok(_) => Err(fault(FaultKind::BadFlow, whole, text)),
        Err(kind) => Err(fault(kind, whole, text)),
    }
}

/// The scalar in front of the text, and what follows it. Each further line of it begins with at least
/// so many spaces; without a number it has one line.
#[inline(always)]
#[tactic(auto, unfolding(yq_core::specs::Reading::read_scalar, yq_core::specs::Plain::plain_at), using(yq_core::proofs::Bounds::plain_unquoted))]
pub fn read_scalar<'t>(
    flow: bool,
    spaces: Option<usize>,
    whole: &str,
    text: &'t str,
) -> Result<(&'t str, &'t str), ReadFault>
    ensures read { ReadsAs (λ x. (x.0.now, x.1.now)) result
        (spec.read_scalar flow spaces text.now) }
    ensures quoted { IfOk result (λ x. scalars.is_quoted x.0.now ≡ true → IsQuotedText x.0.now) }
    ensures shorter { IfOk result (λ x. length x.1.now ≤ length text.now) }
    ensures fault { IfErr result (λ f. f.kind ≢ NotUtf8) }
{
    if is_quoted(text.as_bytes()) {
        return read_quoted(spaces, whole, text);
    }
    if !begins_plain(flow, text.as_bytes()) {
        return Err(fault(no_key(text.as_bytes()), whole, text));
    }
    Ok(split_plain(flow, spaces, text))
}

/// What is between an anchor and its node, and what follows it.
fn read_apart<'t>(flow: bool, whole: &str, text: &'t str) -> Result<(&'t str, &'t str), ReadFault>
    ensures read { ReadsSlices result (spec.apart_at flow text.now) }
    ensures shorter { IfOk result (λ x. length x.1.now ≤ length text.now) }
    ensures fault { IfErr result (λ f. f.kind ≢ NotUtf8) }
{
    if flow {
        read_gap(whole, text)
    } else {
        Ok(split_white(text))
    }
}

/// The same, if a content begins after it.
#[tactic(auto, unfolding(yq_core::specs::Reading::lead_at))]
pub fn read_lead<'t>(
    flow: bool,
    whole: &str,
    text: &'t str,
) -> Result<(&'t str, &'t str), ReadFault>
    ensures read { ReadsSlices result (spec.lead_at flow (nodes.begins_content flow) text.now) }
    ensures shorter { IfOk result (λ x. length x.1.now ≤ length text.now) }
    ensures fault { IfErr result (λ f. f.kind ≢ NotUtf8) }
{
    let (gap, rest) = read_apart(flow, whole, text)?;
    if begins_content(flow, rest.as_bytes()) {
        Ok((gap, rest))
    } else {
        Ok(("", text))
    }
}

/// The gap after a `:`, if a node begins after it.
#[tactic(auto, unfolding(yq_core::specs::Reading::lead_at))]
fn read_value_lead<'t>(whole: &str, text: &'t str) -> Result<(&'t str, &'t str), ReadFault>
    ensures read { ReadsSlices result (spec.lead_at true (nodes.begins_node true) text.now) }
    ensures shorter { IfOk result (λ x. length x.1.now ≤ length text.now) }
    ensures fault { IfErr result (λ f. f.kind ≢ NotUtf8) }
{
    let (gap, rest) = read_gap(whole, text)?;
    if first_is(b'&', rest.as_bytes()) || begins_content(true, rest.as_bytes()) {
        Ok((gap, rest))
    } else {
        Ok(("", text))
    }
}

/// Whether a key may end before a `:` that this follows.
fn ends_key(piece: &str, text: &[u8]) -> bool
    ensures { result ≡ nodes.ends_key piece.now text.now }
{
    is_quoted(piece.as_bytes()) || separates(text) || first_is(b',', text) || first_is(b'}', text)
}

/// What follows the `:` of a key; after the mapping's `{` was `open`.
#[tactic(auto, unfolding(yq_core::specs::Reading::after_colon))]
fn read_colon<'t>(piece: &str, whole: &str, open: &str, text: &'t str) -> Result<&'t str, ReadFault>
    ensures read { ReadsAs (λ x. x.now) result (spec.after_colon piece.now text.now) }
    ensures shorter { IfOk result (λ x. length x.now < length text.now) }
    ensures fault { IfErr result (λ f. f.kind ≢ NotUtf8) }
{
    match strip(b':', text) {
        Some(rest) if ends_key(piece, rest.as_bytes()) => Ok(rest),
        _ => Err(flow_fault(FaultKind::BadFlow, whole, open, text)),
    }
}

/// What follows an item and the comma after it, if there is one, whatever gaps are round that.
#[tactic(auto, unfolding(yq_core::specs::Reading::sep_at, yq_core::specs::Reading::sep_after))]
fn long_sep<'t>(close: u8, whole: &str, open: &str, text: &'t str) -> Result<&'t str, ReadFault>
    ensures read { ReadsAs (λ x. x.now) result (reading.past_sep close text.now) }
    ensures shorter { IfOk result (λ x. length x.now ≤ length text.now) }
    ensures fault { IfErr result (λ f. f.kind ≢ NotUtf8) }
{
    let (_, rest) = read_gap(whole, text)?;
    if let Some(after) = strip(b',', rest) {
        let (_, rest) = read_gap(whole, after)?;
        return Ok(rest);
    }
    if first_is(close, rest.as_bytes()) {
        Ok(rest)
    } else {
        let kind = no_node(rest.as_bytes(), FaultKind::BadFlow);
        Err(flow_fault(kind, whole, open, rest))
    }
}

/// What follows an item and the comma after it, if there is one; after the collection's bracket was
/// `open`.
#[inline(always)]
pub fn read_sep<'t>(close: u8, whole: &str, open: &str, text: &'t str) -> Result<&'t str, ReadFault>
    ensures read { ReadsAs (λ x. x.now) result (reading.past_sep close text.now) }
    ensures shorter { IfOk result (λ x. length x.now ≤ length text.now) }
    ensures fault { IfErr result (λ f. f.kind ≢ NotUtf8) }
{
    match short_sep(close, text) {
        Some(rest) => Ok(rest),
        None => long_sep(close, whole, open, text),
    }
}

/// A key with what quotes it, and what follows its `:` and the gap after it, whatever gaps are round that.
#[tactic(auto, unfolding(yq_core::specs::Reading::read_flow_key))]
fn long_key<'t>(whole: &str, open: &str, text: &'t str) -> Result<(&'t str, &'t str), ReadFault>
    ensures read { ReadsAs (λ x. (x.0.now, x.1.now)) result (reading.split_key text.now) }
    ensures quoted { IfOk result (λ x. scalars.is_quoted x.0.now ≡ true → IsQuotedText x.0.now) }
    ensures shorter { IfOk result (λ x. length x.1.now < length text.now) }
    ensures fault { IfErr result (λ f. f.kind ≢ NotUtf8) }
{
    let (key, rest) = match read_scalar(true, None, whole, text) {
        Ok(found) => found,
        Err(found) => return Err(flow_fault(found.kind, whole, open, text)),
    };
    let (_, rest) = read_gap(whole, rest)?;
    let rest = read_colon(key, whole, open, rest)?;
    let (_, rest) = read_value_lead(whole, rest)?;
    Ok((key, rest))
}

/// A key with what quotes it, and what follows its `:` and the gap after it; after the mapping's `{`
/// was `open`.
#[inline(always)]
pub fn read_key<'t>(whole: &str, open: &str, text: &'t str) -> Result<(&'t str, &'t str), ReadFault>
    ensures read { ReadsAs (λ x. (x.0.now, x.1.now)) result (reading.split_key text.now) }
    ensures quoted { IfOk result (λ x. scalars.is_quoted x.0.now ≡ true → IsQuotedText x.0.now) }
    ensures shorter { IfOk result (λ x. length x.1.now < length text.now) }
    ensures fault { IfErr result (λ f. f.kind ≢ NotUtf8) }
{
    match short_key(text) {
        Some(found) => Ok(found),
        None => long_key(whole, open, text),
    }
}
