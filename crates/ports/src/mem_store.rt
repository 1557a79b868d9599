ghost use Rattle.std.specs.Prelude.{◌≡◌, ◌≢◌, ◌^◌, ◌<◌, ◌≤◌, ◌+◌, [], ◌∷◌, ◌++◌, Some, None, false, true, min, OnOk, OnErr};
ghost use Rattle.std.specs.List.{list_any};
ghost use Rattle.std.specs.Option.{option_copied, option_map};
ghost use Rattle.ports.specs.Counts.{greatest};
ghost use Rattle.ports.specs.Files.{held_in};
ghost use Rattle.ports.specs.MemStore.{answer_for, answer_of, store_after, taken_for};
ghost use Rattle.ports.specs.Reading.{HasCause, reads_made};

use crate::store::{ReadAnswer, Reads, Store, StoreRead};
use ev_types::{Blob, Memory, Text};
use std::alloc::Global;

/// A store in memory. The first file with a name is held under it, and a read of an absent name fails.
#[derive(Drop)]
pub struct MemStore {
    pub files: Vec<(Text, Blob)>,
    /// The numbers, from 0, of the reads that fail.
    pub failing: Vec<u64>,
    /// The number of reads, not counting those that answered out of memory.
    pub calls: u64,
    /// How many bytes were handed out. A file that is too long counts as its limit and one more.
    pub taken: u64,
    /// How many reads failed.
    pub faults: u64,
    pub reads: Reads,
}

impl MemStore {
    /// A store of these files that was not read yet. The reads with these numbers, from 0, fail.
    pub fn fresh(alloc: Global, files: Vec<(Text, Blob)>, failing: Vec<u64>) -> MemStore
        ensures files { result.files ≡ files }
        ensures failing { result.failing ≡ failing }
        ensures calls { result.calls ≡ 0 }
        ensures taken { result.taken ≡ 0 }
        ensures faults { result.faults ≡ 0 }
        ensures reads { result.reads ≡ [] }
    {
        MemStore {
            files,
            failing,
            calls: 0,
            taken: 0,
            faults: 0,
            reads: Reads::fresh(alloc),
        }
    }

    /// What a read answers, before anything is counted.
    fn answer(&self, alloc: Global, name: &Text, limit: u64) -> ReadAnswer
        ensures { result ≢ ReadAnswer.Memory → result ≡ answer_of self.now name.now limit }
    {
        if self.failing.contains(&self.calls) {
            return ReadAnswer::Failed;
        }
        match find_file(self.files.as_slice(), name) {
            Some(file) => copy_within(alloc, file, limit),
            None => ReadAnswer::Failed,
        }
    }
}

impl Store for MemStore {
    ghost report = { λ store. record {
      held = λ name. Some (held_in store.files.items name);
      reads = Some store.reads;
      gave = None;
      taken = store.taken;
      faults = store.faults;
    } };

    fn read(&mut self, alloc: Global, name: &Text, limit: u64) -> ReadAnswer
        requires { limit < 2 ^ 63 }
        ensures held { held_in self.new.files.items ≡ held_in self.old.files.items }
        ensures cause { HasCause (Some (held_in self.old.files.items name.now)) limit
            self.old.faults self.new.faults
            self.old.taken self.new.taken result }
        ensures reads { self.new.reads ≡ self.old.reads ++ reads_made name.now result }
        ensures taken { self.old.taken ≤ self.new.taken }
        ensures faults { self.old.faults ≤ self.new.faults }

        // More than a store must report: the exact answer, and the whole store after it.
        ensures answer { result ≢ ReadAnswer.Memory →
            result ≡ answer_of self.old name.now limit }
        ensures after { self.new ≡ store_after self.old name.now limit result }
    {
        let answer = self.answer(alloc, name, limit);
        if let ReadAnswer::Memory = answer {
            return answer;
        }
        let failed = matches!(answer, ReadAnswer::Failed);
        if note(alloc, &mut self.reads, name, failed).is_err() {
            return ReadAnswer::Memory;
        }
        self.calls = self.calls.saturating_add(1);
        self.taken = self.taken.saturating_add(taken_by(&answer, limit));
        if failed {
            self.faults = self.faults.saturating_add(1);
        }
        answer
    }
}

/// The first file with the name.
fn find_file<'a>(files: &'a [(Text, Blob)], name: &Text) -> Option<&'a Blob>
    ensures { option_copied result ≡ held_in files.now name.now }
{
    for file in files {
        if file.0.is(name.as_bytes()) {
            return Some(&file.1);
        }
    }
    None
}

/// A copy of the file, if it is within the limit.
fn copy_within(alloc: Global, file: &Blob, limit: u64) -> ReadAnswer
    ensures { result ≢ ReadAnswer.Memory → result ≡ answer_for limit (Some file.now) }
{
    if file.len() as u64 > limit {
        return ReadAnswer::TooLong;
    }
    match Blob::from_slice(alloc, file.as_slice()) {
        Ok(bytes) => ReadAnswer::Bytes(bytes),
        Err(_) => ReadAnswer::Memory,
    }
}

/// Adds the read at the end.
fn note(alloc: Global, reads: &mut Reads, name: &Text, failed: bool) -> Result<(), Memory>
    ensures ok { OnOk result (reads.new ≡ reads.old
        ++ record { name = name.now; failed = failed } ∷ []) }
    ensures err { OnErr result (reads.new ≡ reads.old) }
{
    let name = name.copy(alloc)?;
    reads.push(alloc, StoreRead { name, failed })?;
    Ok(())
}

/// How many bytes of a file the answer took.
fn taken_by(answer: &ReadAnswer, limit: u64) -> u64
    requires { limit < 2 ^ 63 }
    ensures { result ≡ taken_for limit answer.now }
{
    match answer {
        ReadAnswer::Bytes(bytes) => bytes.len() as u64,
        ReadAnswer::TooLong => limit + 1,
        ReadAnswer::Failed | ReadAnswer::Memory => 0,
    }
}
