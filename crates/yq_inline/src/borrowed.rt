//! Flow collections that the text lends, passed without their trees.
ghost use Rattle.std.specs.Prelude.{◌≡◌, ◌<◌, ◌≤◌, IfSome, length};
ghost use Rattle.yq_inline.{specs.KeyTexts.key_texts, specs.Short.IsShortKey};
ghost use Rattle.yq_inline.specs.Passed as spec;

use crate::borrows::{borrows_text, is_short, key_fits};
use crate::keys::{Keys, take_distinct};
use crate::lead::read_open;
use crate::pieces::{begins_content, begins_scalar, read_key, read_scalar, read_sep};
use crate::short::{short_key, short_scalar};
use yq_core::{borrowed_text, first_is, strip};

/// What was passed: what follows it, and how many collections are nested in it at most.
#[derive(Clone, Copy)]
pub struct Passed<'t> {
    pub rest: &'t str,
    pub nested: usize,
}

/// What follows the scalar in front, where it is as most often written.
#[inline(always)]
fn past_short(text: &str) -> Option<&str>
    ensures shorter { IfSome result (λ r. length r.now < length text.now) }
    ensures passed { IfSome result (λ r. spec.IsPassedContent 0 text.now r.now) }
{
    let (_, rest) = short_scalar(text)?;
    Some(rest)
}

/// What follows the scalar in front, where the text lends it.
fn past_scalar(text: &str) -> Option<&str>
    ensures shorter { IfSome result (λ r. length r.now < length text.now) }
    ensures passed { IfSome result (λ r. spec.IsPassedContent 0 text.now r.now) }
{
    let Ok((piece, rest)) = read_scalar(true, Some(0), text, text) else {
        return None;
    };
    if !borrows_text(piece) {
        return None;
    }
    Some(rest)
}

/// The key in front as it is written, where the text lends it, and what follows its `:` and the gap after
/// that.
#[inline(always)]
fn split_borrowed_key(text: &str) -> Option<(&str, &str)>
    ensures shorter { IfSome result (λ x. length x.1.now < length text.now) }
    ensures short { IfSome result (λ x. IsShortKey text.now x.0.now x.1.now) }
{
    if let Some(found) = short_key(text) {
        return Some(found);
    }
    let Ok((key, rest)) = read_key(text, text, text) else {
        return None;
    };
    if !borrows_text(key) {
        return None;
    }
    Some((key, rest))
}

/// What the key in front means, where it is fit and the text lends it, and what follows its `:` and the gap
/// after that.
#[inline(always)]
fn pass_key(text: &str) -> Option<(&str, &str)>
    ensures shorter { IfSome result (λ x. length x.1.now < length text.now) }
    ensures passed { IfSome result (λ x. spec.IsPassedKey x.0.now text.now x.1.now) }
{
    let (key, rest) = split_borrowed_key(text)?;
    if !is_short(key) || !key_fits(key) {
        return None;
    }
    Some((borrowed_text(key), rest))
}

/// What follows the value in front if `keyed`, or else the item, where it is no collection.
#[inline(always)]
fn past_other(keyed: bool, text: &str) -> Option<&str>
    ensures shorter { IfSome result (λ r. length r.now ≤ length text.now) }
    ensures passed { IfSome result (λ r. spec.IsPassedPart keyed 0 text.now r.now) }
{
    if begins_scalar(true, text.as_bytes()) {
        return past_scalar(text);
    }
    if !keyed {
        return None;
    }
    if begins_content(true, text.as_bytes()) {
        return None;
    }
    if first_is(b'&', text.as_bytes()) {
        return None;
    }
    Some(text)
}

/// A value if `keyed`, or else an item, in which at most so many collections are nested.
#[inline(always)]
#[cycle(passing)]
fn pass_part<'t>(
    keys: &mut Keys<'t>,
    keyed: bool,
    depth: usize,
    text: &'t str,
) -> Option<Passed<'t>>
    ensures shorter { IfSome result (λ p. length p.rest.now ≤ length text.now) }
    ensures nested { IfSome result (λ p. p.nested ≤ depth) }
    ensures passed { IfSome result (λ p. spec.IsPassedPart keyed p.nested text.now p.rest.now) }
    ensures kept { IfSome result (λ p. key_texts keys.new.items ≡ key_texts keys.old.items) }
{
    if let Some(rest) = past_short(text) {
        return Some(Passed { rest, nested: 0 });
    }
    if let Some(after) = strip(b'[', text) {
        return pass_sequence(keys, depth, after);
    }
    if let Some(after) = strip(b'{', text) {
        return pass_mapping(keys, depth, after);
    }
    let rest = past_other(keyed, text)?;
    Some(Passed { rest, nested: 0 })
}

/// A sequence after its `[`, in which at most so many collections are nested, itself among them.
#[cycle(passing)]
pub(crate) fn pass_sequence<'t>(
    keys: &mut Keys<'t>,
    depth: usize,
    text: &'t str,
) -> Option<Passed<'t>>
    ensures shorter { IfSome result (λ p. length p.rest.now ≤ length text.now) }
    ensures nested { IfSome result (λ p. p.nested ≤ depth) }
    ensures passed { IfSome result (λ p.
        spec.IsPassedCollection 93 p.nested text.now p.rest.now) }
    ensures kept { IfSome result (λ p. key_texts keys.new.items ≡ key_texts keys.old.items) }
{
    let Ok(first) = read_open(text, depth, text) else {
        return None;
    };
    let mut nested = 0;
    let mut rest = first;
    'each: loop {
        if let Some(following) = strip(b']', rest) {
            return Some(Passed {
                rest: following,
                nested: nested + 1,
            });
        }
        let item = pass_part(keys, false, depth - 1, rest)?;
        let Ok(after) = read_sep(b']', text, text, item.rest) else {
            return None;
        };
        nested = nested.max(item.nested);
        rest = after;
    }
}

/// A mapping after its `{`, in which at most so many collections are nested, itself among them; its keys
/// differ.
#[cycle(passing)]
pub(crate) fn pass_mapping<'t>(
    keys: &mut Keys<'t>,
    depth: usize,
    text: &'t str,
) -> Option<Passed<'t>>
    ensures shorter { IfSome result (λ p. length p.rest.now ≤ length text.now) }
    ensures nested { IfSome result (λ p. p.nested ≤ depth) }
    ensures passed { IfSome result (λ p.
        spec.IsPassedCollection 125 p.nested text.now p.rest.now) }
    ensures kept { IfSome result (λ p. key_texts keys.new.items ≡ key_texts keys.old.items) }
{
    let Ok(first) = read_open(text, depth, text) else {
        return None;
    };
    let others = keys.len();
    let mut nested = 0;
    let mut rest = first;
    'each: loop {
        if let Some(following) = strip(b'}', rest) {
            if !take_distinct(keys, others) {
                return None;
            }
            return Some(Passed {
                rest: following,
                nested: nested + 1,
            });
        }
        let (key, value) = pass_key(rest)?;
        let node = pass_part(keys, true, depth - 1, value)?;
        let Ok(after) = read_sep(b'}', text, text, node.rest) else {
            return None;
        };
        match keys.push(key) {
            Ok(()) => {}
            Err(_) => return None,
        }
        nested = nested.max(node.nested);
        rest = after;
    }
}
