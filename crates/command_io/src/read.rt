ghost use Rattle.std.specs.Prelude.{◌≡◌, ◌^◌, ◌<◌, ◌≤◌, IfErr, IfOk, OnOk, length};
ghost use Rattle.command_io.specs.Files.{Gives, IsFileFault, ReadMore, reads_of};
ghost use Rattle.command_io.specs.Fetches.{ending_of_file};

use crate::ending::Ending;
use ev_types::{Blob, Text};
use ports::{ReadAnswer, Store};
use std::alloc::Global;

/// Why a file was not read.
#[derive(Clone, Copy)]
pub enum FileFault {
    /// It could not be read.
    Unread,
    /// It is longer than the limit.
    TooLong,
    Memory,
}

impl FileFault {
    /// How the command ends that was to read the file of the name, which may have at most `limit` bytes.
    pub fn ending<'a>(self, name: &'a str, limit: u64) -> Ending<'a>
        ensures { result ≡ ending_of_file name.entry limit self }
    {
        match self {
            FileFault::Unread => Ending::Unread { name },
            FileFault::TooLong => Ending::OverLimit { name, limit },
            FileFault::Memory => Ending::OutOfMemory,
        }
    }
}

/// Reads the file of the name, which may have at most `limit` bytes.
#[tactic(auto, using(crate::proofs::FileLaws::gives, crate::proofs::FileLaws::gives_none))]
pub fn read_file<S: Store>(
    alloc: Global,
    name: &Text,
    limit: u64,
    store: &mut S,
) -> Result<Blob, FileFault>
    requires { limit < 2 ^ 63 }
    ensures file { IfOk result (λ bytes. Gives name.now bytes (S.report store.old)
        (S.report store.new)) }
    ensures within { IfOk result (λ bytes. length bytes ≤ limit) }
    ensures fault { IfErr result
        (IsFileFault name.now limit (S.report store.old) (S.report store.new)) }
    ensures reads { ReadMore (reads_of name.now result) (S.report store.old).reads
        (S.report store.new).reads }
    ensures quiet { OnOk result ((S.report store.new).faults ≡ (S.report store.old).faults) }
    ensures held { (S.report store.new).held ≡ (S.report store.old).held }
    ensures taken { (S.report store.old).taken ≤ (S.report store.new).taken }
{
    match store.read(alloc, name, limit) {
        ReadAnswer::Bytes(bytes) => Ok(bytes),
        ReadAnswer::Failed => Err(FileFault::Unread),
        ReadAnswer::TooLong => Err(FileFault::TooLong),
        ReadAnswer::Memory => Err(FileFault::Memory),
    }
}
