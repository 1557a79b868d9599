ghost use Rattle.std.specs.Prelude.{◌≡◌, OnErr, OnOk};
ghost use Rattle.ports.specs.Counts.{Rose};
ghost use Rattle.ports.specs.Writing.{Got, GotPrefix};

use ports::{Failed, Sink};

/// Writes the bytes, if there are any, in one put.
pub fn put_all<O: Sink>(out: &mut O, bytes: &[u8]) -> Result<(), Failed>
    ensures all { OnOk result (Got (O.report out.old).text bytes.now (O.report out.new).text) }
    ensures quiet { OnOk result ((O.report out.new).faults ≡ (O.report out.old).faults) }
    ensures prefix { OnErr result
        (GotPrefix (O.report out.old).text bytes.now (O.report out.new).text) }
    ensures fault { OnErr result (Rose (O.report out.old).faults (O.report out.new).faults) }
{
    if bytes.is_empty() {
        return Ok(());
    }
    out.put(bytes)?;
    Ok(())
}
