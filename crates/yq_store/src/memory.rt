//! A store in memory, which can be made to fail.
ghost use Rattle.std.{specs.Prelude.{◌≡◌, true, [], IfOk, option_map}, specs.String.string_bytes};
ghost use Rattle.yq_store.{specs.Calls.{CountsCall, no_calls}, specs.FileMap.file_bytes};
ghost use Rattle.std.specs.FinMap as map;

use crate::store::{Counts, Store};
use std::alloc::{AllocError, Global};
use std::collections::VecDeque;
use yq_fault::Fault;

/// What a write that fails leaves.
#[derive(Clone, Copy, PartialEq, Eq)]
pub enum Left {
    OldBytes,
    NewBytes,
}

/// Files in memory: the log of writes, the newest first.
#[derive(Drop)]
pub struct MemoryStore {
    log: VecDeque<(String, Vec<u8>)>,
    alloc: Global,
    calls: u64,
    fails: Option<(u64, Left)>,
    counts: Counts,
}

impl MemoryStore {
    /// A store without files.
    pub fn new(alloc: Global) -> MemoryStore
        ensures log { result.log.items ≡ [] }
        ensures counts { result.counts ≡ no_calls }
    {
        MemoryStore {
            log: VecDeque::new(alloc),
            alloc,
            calls: 0,
            fails: None,
            counts: Counts::none(),
        }
    }

    /// Fails the call of this number, counted from 1 from now on.
    pub fn fail_at(&mut self, call: u64, left: Left)
        ensures log { self.new.log ≡ self.old.log }
        ensures counts { self.new.counts ≡ self.old.counts }
    {
        self.calls = 0;
        self.fails = Some((call, left));
    }

    /// How many calls there were since the last `fail_at`.
    pub fn calls(&self) -> u64
        ensures { result ≡ self.now.calls }
    {
        self.calls
    }

    /// How many calls failed.
    pub fn failures(&self) -> u64
        ensures { result ≡ self.now.counts.failures }
    {
        self.counts.failures
    }

    /// How many calls of `read` there were.
    pub fn reads(&self) -> u64
        ensures { result ≡ self.now.counts.reads }
    {
        self.counts.reads
    }

    /// How many calls of `replace` there were.
    pub fn writes(&self) -> u64
        ensures { result ≡ self.now.counts.writes }
    {
        self.counts.writes
    }

    /// The bytes of a file, without a call of the store.
    pub fn bytes(&self, name: &str) -> Option<&Vec<u8>>
        ensures { option_map (λ v. v.now.items) result ≡
            map.get (file_bytes self.now.log.items) name.now }
    {
        find_bytes(&self.log, name)
    }

    /// What a write of this call leaves, where this is the call to fail.
    fn next_call(&mut self) -> Option<Left>
        ensures log { self.new.log ≡ self.old.log }
        ensures counts { self.new.counts ≡ self.old.counts }
        ensures alloc { self.new.alloc ≡ self.old.alloc }
    {
        self.calls = self.calls.saturating_add(1);
        match self.fails {
            Some((call, left)) if call == self.calls => Some(left),
            _ => None,
        }
    }
}

/// The newest bytes of a name.
fn find_bytes<'a>(log: &'a VecDeque<(String, Vec<u8>)>, name: &str) -> Option<&'a Vec<u8>>
    ensures { option_map (λ v. v.now.items) result ≡ map.get (file_bytes log.now.items) name.now }
{
    'entries: for (k, bytes) in log {
        if name == k.as_str() {
            return Some(bytes);
        }
    }
    None
}

/// An entry of the log.
fn entry(alloc: Global, name: &str, bytes: &[u8]) -> Result<(String, Vec<u8>), AllocError>
    ensures ok { IfOk result (λ e. (string_bytes e.0 ≡ name.now) × (e.1.items ≡ bytes.now)) }
{
    let name = String::from_str(alloc, name)?;
    Ok((name, bytes.to_vec(alloc)?))
}

impl Store for MemoryStore {
    ghost keeps = { true };

    ghost content = { λ s. file_bytes s.log.items };

    ghost failures = { λ s. s.counts.failures };

    ghost leads = { λ s call t. CountsCall s.counts call t.counts };

    fn read(&mut self, alloc: Global, name: &str) -> Result<Vec<u8>, Fault> {
        self.counts.reads = self.counts.reads.saturating_add(1);
        if self.next_call().is_some() {
            self.counts.failures = self.counts.failures.saturating_add(1);
            return Err(Fault::ReadFailed);
        }
        match find_bytes(&self.log, name) {
            None => Err(Fault::NotThere),
            Some(bytes) => Ok(bytes.as_slice().to_vec(alloc)?),
        }
    }

    #[tactic(auto, using(crate::specs::FileMap::get_other))]
    fn replace(&mut self, name: &str, bytes: &[u8]) -> Result<(), Fault> {
        self.counts.writes = self.counts.writes.saturating_add(1);
        let next_call = self.next_call();
        if next_call == Some(Left::OldBytes) {
            self.counts.failures = self.counts.failures.saturating_add(1);
            return Err(Fault::WriteFailed);
        }
        let entry = entry(self.alloc, name, bytes)?;
        self.log.push_front(entry).map_err(AllocError::from)?;
        if next_call == Some(Left::NewBytes) {
            self.counts.failures = self.counts.failures.saturating_add(1);
            return Err(Fault::WriteFailed);
        }
        Ok(())
    }
}
