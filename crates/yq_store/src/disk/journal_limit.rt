//! How large a journal may be that is read, or with which an edit begins.

use crate::disk::purpose::Purpose;
use std::alloc::Global;
use std::env;
use std::rt::Env;

/// What the environment sets to another limit than the usual one, in units of 1,048,576 bytes.
const LIMIT: &str = "YQ_JOURNAL_LIMIT";

/// The usual limit, in these units.
const USUAL: u64 = 64;

/// How many of these units more are read: an undo writes the whole text into a journal that may be full.
const FOR_TEXT: u64 = 32;

/// How many bytes such a unit has.
const UNIT: u64 = 1_048_576;

/// The limit, in these units.
fn limit<R: Env + Alloc<A = Global>>(rt: &R) -> u64 {
    match env::var(rt, LIMIT) {
        Ok(word) => word.as_str().parse().unwrap_or(USUAL),
        Err(_) => USUAL,
    }
}

/// How many bytes a journal may have that is read.
pub fn most_read<R: Env + Alloc<A = Global>>(rt: &R) -> u64 {
    limit(rt).saturating_add(FOR_TEXT).saturating_mul(UNIT)
}

/// How many bytes a journal may have that a command of this purpose writes first. What goes back and forth in
/// a journal, or joins its records, is let do so in each that is read.
pub fn most_written<R: Env + Alloc<A = Global>>(rt: &R, purpose: Purpose) -> u64 {
    match purpose {
        Purpose::Edit => limit(rt).saturating_mul(UNIT),
        _ => most_read(rt),
    }
}
