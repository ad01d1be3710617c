//! Several records joined into one.
ghost use Rattle.std.specs.Prelude.{◌≡◌, true, ◌<◌, ◌≤◌, ◌∷◌, ◌++◌, [], IfErr, IfOk, None, OnOk, drop, length, take};
ghost use Rattle.yq_journal.{specs.Record.{IsRecord, join, records_joined, meet, Meets}, specs.Refusals.{Reports, count_fault}};
ghost use Rattle.yq_journal.specs.State.{joined_of, last_done};

use crate::{JournalError, JournalFault, Record};
use std::alloc::{AllocError, Global};
use std::marker::Model;
use yq_text::Splice;

/// The parts of records that are joined one after the other.
#[derive(Drop)]
struct RecordParts {
    expr: String,
    splices: Vec<Splice>,
    before_len: u64,
    after_len: u64,
    count: u64,
}

impl Model for RecordParts {
    ghost use Rattle.std.specs.String.{string_bytes};
    ghost use Rattle.yq_journal.specs.Record.{Record};

    ghost Value = { Record };

    ghost view = { λ p. record { expr = string_bytes p.expr; changes = p.splices.items; before_len = p.before_len; after_len = p.after_len; count = p.count } };
}

/// A splice of its own with the same bytes.
fn copy(alloc: Global, splice: &Splice) -> Result<Splice, AllocError>
    ensures { IfOk result (λ s. s ≡ splice.now) }
{
    Ok(Splice {
        at: splice.at,
        old: Vec::from_slice(alloc, &splice.old)?,
        new: Vec::from_slice(alloc, &splice.new)?,
    })
}

/// Adds copies of splices to others.
fn extend(alloc: Global, splices: &mut Vec<Splice>, more: &[Splice]) -> Result<(), AllocError>
    ensures { OnOk result (splices.new.items ≡ splices.old.items ++ more.now) }
{
    splices.reserve(more.len())?;
    'more: for splice in more {
        splices.push(copy(alloc, splice)?)?;
    }
    Ok(())
}

impl RecordParts {
    fn new(alloc: Global, first: &Record) -> Result<RecordParts, AllocError>
        ensures same { IfOk result (λ p. p ≡ first.now) }
        ensures valid { IfOk result (λ p. IsRecord p) }
    {
        let mut splices = Vec::new(alloc);
        extend(alloc, &mut splices, &first.splices)?;
        Ok(RecordParts {
            expr: String::from_str(alloc, &first.expr)?,
            splices,
            before_len: first.before_len,
            after_len: first.after_len,
            count: first.count,
        })
    }

    /// Joins the next record to them.
    fn join(&mut self, alloc: Global, next: &Record) -> Result<(), AllocError>
        ensures joined { OnOk result (self.new ≡ join self.old next.now) }
        ensures valid { OnOk result (IsRecord self.old → Meets self.old next.now → IsRecord self.new) }
    {
        self.expr.push_str(" | ")?;
        self.expr.push_str(&next.expr)?;
        extend(alloc, &mut self.splices, &next.splices)?;
        self.after_len = next.after_len;
        self.count = self.count.saturating_add(next.count);
        Ok(())
    }
}

/// Records as one, which copies their bytes and leaves them as they are.
fn join_all(alloc: Global, first: &Record, rest: &[Record]) -> Result<Record, AllocError>
    requires { meet (first.now ∷ rest.now) ≡ true }
    ensures { IfOk result (λ r. r ≡ records_joined first.now rest.now) }
{
    let mut parts = RecordParts::new(alloc, first)?;
    'rest: for next in rest {
        parts.join(alloc, next)?;
    }
    let RecordParts {
        expr,
        splices,
        before_len,
        after_len,
        count,
    } = parts;
    Ok(Record {
        expr,
        splices,
        before_len,
        after_len,
        count,
        written: None,
    })
}

/// Whether each record ends with the length with which the next one begins.
fn meets(records: &[Record]) -> bool
    ensures { result ≡ meet records.now }
{
    let mut rest = records;
    'pairs: while let [left, right, ..] = rest {
        if left.after_len != right.before_len {
            return false;
        }
        rest = &rest[1..];
    }
    true
}

/// The last `n` records up to the cursor as one, refused as `BadCount` where
/// there aren't so many, or none is asked for, or neighbours don't meet.
pub(crate) fn join_last(
    alloc: Global,
    records: &[Record],
    at: usize,
    n: u64,
) -> Result<Record, JournalError>
    requires { at ≤ length records.now }
    ensures free { OnOk result (count_fault records.now at n ≡ None) }
    ensures ok { IfOk result (λ r. joined_of (last_done records.now at n) ≡ r ∷ []) }
    ensures err { IfErr result (λ e. Reports e (count_fault records.now at n)) }
{
    let fault = JournalError::Fault(JournalFault::BadCount);
    if n == 0 || n > at as u64 {
        return Err(fault);
    }
    let run = &records[at - n as usize..at];
    if !meets(run) {
        return Err(fault);
    }
    match run {
        [first, rest @ ..] => Ok(join_all(alloc, first, rest)?),
        [] => Err(fault),
    }
}

/// Puts one record in the place of those from `start` up to `end`.
pub(crate) fn replace_run(records: &mut Vec<Record>, start: usize, end: usize, by: Record)
    requires run { start < end }
    requires within { end ≤ length records.old.items }
    ensures { records.new.items ≡ take start records.old.items ++
        (by ∷ drop end records.old.items) }
{
    let after = records.len() - end;
    records[start] = by;
    records.rotate_left(end);
    records.truncate(after + start + 1);
    records.rotate_left(after);
}
