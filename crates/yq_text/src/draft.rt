//! What is made of the segments of a text, one after the other.
ghost use Rattle.std.specs.Prelude.{◌≡◌, ℕ, ◌+◌, ◌<◌, ◌^◌, ◌++◌, [], List, OnOk, length, string_bytes};
ghost use Rattle.yq_text.specs.Halves.{whole};
ghost use Rattle.yq_text.specs.Script as script;

use crate::Halves;
use crate::splice::Splice;
use std::alloc::{AllocError, Global};
use std::mem::replace;

/// What is made of the segments so far: the new text, its splices, and after them the exchange that the
/// next segment may go on with, at its offset in the new text.
#[derive(Drop)]
pub(crate) struct Draft {
    pub(crate) text: String,
    pub(crate) splices: Vec<Splice>,
    pub(crate) at: usize,
    pub(crate) gone: Vec<u8>,
    pub(crate) come: Vec<u8>,
}

/// Adds an exchange of bytes at an offset to splices, if they differ.
pub(crate) fn push_splice(
    splices: &mut Vec<Splice>,
    at: usize,
    old: Vec<u8>,
    new: Vec<u8>,
) -> Result<(), AllocError>
    ensures { OnOk result (splices.new.items ≡
        splices.old.items ++ script.splice_at at old.items new.items) }
{
    if old.as_slice() == new.as_slice() {
        return Ok(());
    }
    let at = at as u64;
    splices.push(Splice { at, old, new })?;
    Ok(())
}

/// Adds a text to another one, if it has bytes.
fn push_text(text: &mut String, more: &str) -> Result<(), AllocError>
    ensures { OnOk result (string_bytes text.new ≡ string_bytes text.old ++ more.now) }
{
    if more.is_empty() {
        return Ok(());
    }
    text.push_str(more)?;
    Ok(())
}

/// Adds bytes to others.
#[inline(never)]
fn extend_bytes(bytes: &mut Vec<u8>, more: &[u8]) -> Result<(), AllocError>
    ensures { OnOk result (bytes.new.items ≡ bytes.old.items ++ more.now) }
{
    bytes.extend_from_slice(more)?;
    Ok(())
}

/// Adds bytes to others, if there are some.
#[inline(always)]
fn push_bytes(bytes: &mut Vec<u8>, more: &[u8]) -> Result<(), AllocError>
    ensures { OnOk result (bytes.new.items ≡ bytes.old.items ++ more.now) }
{
    if more.is_empty() {
        return Ok(());
    }
    extend_bytes(bytes, more)
}

/// Adds what stays to a text.
fn push_kept(text: &mut String, kept: Halves<'_>) -> Result<(), AllocError>
    ensures { OnOk result (string_bytes text.new ≡ string_bytes text.old ++ whole kept.entry) }
{
    push_text(text, kept.front)?;
    push_text(text, kept.back)
}

/// Adds what is replaced by bytes.
#[inline(always)]
fn push_gone(bytes: &mut Vec<u8>, gone: Halves<'_>) -> Result<(), AllocError>
    ensures { OnOk result (bytes.new.items ≡ bytes.old.items ++ whole gone.entry) }
{
    push_bytes(bytes, gone.front.as_bytes())?;
    push_bytes(bytes, gone.back.as_bytes())
}

impl Draft {
    /// Adds a segment that stays, which has bytes.
    pub(crate) fn keep(&mut self, alloc: Global, kept: Halves<'_>) -> Result<(), AllocError>
        requires { self.old.at + length self.old.come.items + length (whole kept) < 2 ^ 64 }
        ensures text { OnOk result (string_bytes self.new.text ≡
            string_bytes self.old.text ++ whole kept.entry) }
        ensures splices { OnOk result (self.new.splices.items ≡
            self.old.splices.items ++ script.splice_at self.old.at self.old.gone.items
            self.old.come.items) }
        ensures at { OnOk result (self.new.at ≡
            self.old.at + length self.old.come.items + length (whole kept.entry)) }
        ensures gone { OnOk result (self.new.gone.items ≡ []) }
        ensures come { OnOk result (self.new.come.items ≡ []) }
    {
        let old = replace(&mut self.gone, Vec::new(alloc));
        let new = replace(&mut self.come, Vec::new(alloc));
        let at = self.at;
        self.at += new.len() + kept.len();
        push_splice(&mut self.splices, at, old, new)?;
        push_kept(&mut self.text, kept)?;
        Ok(())
    }

    /// Adds a segment that is replaced.
    pub(crate) fn put(&mut self, gone: Halves<'_>, come: &str) -> Result<(), AllocError>
        ensures text { OnOk result (string_bytes self.new.text ≡
            string_bytes self.old.text ++ come.now) }
        ensures splices { OnOk result (self.new.splices.items ≡ self.old.splices.items) }
        ensures at { OnOk result (self.new.at ≡ self.old.at) }
        ensures gone { OnOk result (self.new.gone.items ≡ self.old.gone.items ++ whole gone.entry) }
        ensures come { OnOk result (self.new.come.items ≡ self.old.come.items ++ come.now) }
    {
        push_gone(&mut self.gone, gone)?;
        push_bytes(&mut self.come, come.as_bytes())?;
        push_text(&mut self.text, come)
    }
}
