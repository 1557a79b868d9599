ghost use Rattle.std.specs.Prelude.{◌≡◌, ◌↔◌, ◌+◌, ◌≤◌, [], ◌++◌, None, Some, take, vec_len, IsTrue, IfSome, IsErrAnd, OnOk};
ghost use Rattle.std.specs.IoError.{error_kind};

use crate::read_log::ReadLog;
use crate::store::{ReadAnswer, Store};
use ev_types::{Blob, Text};
use ghost_logs::FileLog;
use std::alloc::Global;
use std::io::{ErrorKind, Read};
use std::rt::Files;
use std::{fs, io};

/// The files of the machine, by their paths. It reports which were read and what was given, and not what they hold.
#[derive(Drop)]
pub struct FileStore<'a, R: Files> {
    rt: &'a R,
    /// The number of bytes taken from files, not counting reads that answered out of memory.
    pub taken: u64,
    /// How many reads failed.
    pub faults: u64,
    // The reads so far that were answered, which only proofs see.
    reads: ReadLog,
    // The files that reads gave, with their bytes, which only proofs see.
    gave: FileLog,
}

impl<'a, R: Files> FileStore<'a, R> {
    /// The files that the runtime reaches. None was read yet.
    pub fn fresh(rt: &'a R) -> FileStore<'a, R>
        ensures { ⟦<FileStore<'a, R> as Store>⟧.report result ≡ record {
          held = λ _. None;
          reads = Some [];
          gave = Some [];
          taken = 0;
          faults = 0;
        } }
    {
        FileStore {
            rt,
            taken: 0,
            faults: 0,
            reads: ReadLog::fresh(),
            gave: FileLog::fresh(),
        }
    }
}

impl<'a, R: Files> Store for FileStore<'a, R> {
    ghost report = { λ store. record {
      held = λ _. None;
      reads = Some store.reads;
      gave = Some store.gave;
      taken = store.taken;
      faults = store.faults;
    } };

    fn read(&mut self, alloc: Global, name: &Text, limit: u64) -> ReadAnswer {
        let mut bytes = Vec::new(alloc);
        let outcome = read_file(self.rt, name.as_str(), limit + 1, &mut bytes);
        if wanted_memory(&outcome) {
            return ReadAnswer::Memory;
        }
        self.reads.add(name, outcome.is_err());
        let count = bytes.len() as u64;
        self.taken = self.taken.saturating_add(count);
        if outcome.is_err() {
            self.faults = self.faults.saturating_add(1);
            return ReadAnswer::Failed;
        }
        if count > limit {
            return ReadAnswer::TooLong;
        }
        let bytes = Blob::from_vec(bytes);
        self.gave.add(name, &bytes);
        ReadAnswer::Bytes(bytes)
    }
}

/// Adds the first `most` bytes of the file at the end of `bytes`. Where it fails, those read so far are added.
fn read_file<R: Files>(rt: &R, path: &str, most: u64, bytes: &mut Vec<u8>) -> io::Result<()> {
    read_front(fs::open(rt, path)?, most, bytes)?;
    Ok(())
}

/// The same of what the reader has left, which is taken in pieces.
fn read_front<R: Read + Drop>(reader: R, most: u64, bytes: &mut Vec<u8>) -> io::Result<()>
    ensures { OnOk result (IfSome (R.remaining reader) (λ left.
        bytes.new.items ≡ bytes.old.items ++ take most left)) }
{
    reader.take(most).read_to_end(bytes)?;
    Ok(())
}

/// Whether it failed because it was out of memory.
fn wanted_memory(outcome: &io::Result<()>) -> bool
    ensures { IsTrue result ↔ IsErrAnd outcome.now (λ error.
        error_kind error ≡ ErrorKind.OutOfMemory) }
{
    match outcome {
        Ok(()) => false,
        Err(error) => error.kind() == ErrorKind::OutOfMemory,
    }
}
