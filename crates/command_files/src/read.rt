ghost use Rattle.std.specs.Prelude.{◌≡◌, IfErr, IfOk, OnOk};
ghost use Rattle.command_files.specs.Files.{IsFile, ReadsOther, RefusesFile};

use command_setup::command_io::{Ending, FILE_LIMIT, read_file};
use ev_types::{Blob, Text};
use ports::Store;
use std::alloc::Global;

/// Reads the other file of a command, which may have at most [`FILE_LIMIT`] bytes.
pub fn read_other<'a, S: Store>(
    alloc: Global,
    name: &'a Text,
    store: &mut S,
) -> Result<Blob, Ending<'a>>
    ensures file { IfOk result (IsFile name.now (S.report store.old) (S.report store.new)) }
    ensures refused { IfErr result
        (RefusesFile name.now (S.report store.old) (S.report store.new)) }
    ensures reads { ReadsOther name.now (S.report store.old).reads (S.report store.new).reads
        result }
    ensures quiet { OnOk result ((S.report store.new).faults ≡ (S.report store.old).faults) }
{
    match read_file(alloc, name, FILE_LIMIT, store) {
        Ok(bytes) => Ok(bytes),
        Err(fault) => Err(fault.ending(name.as_str(), FILE_LIMIT)),
    }
}
