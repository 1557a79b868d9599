ghost use Rattle.std.specs.Prelude.{◌≡◌};
ghost use Rattle.command_setup.specs.Endings.{ending_of_fault};

use command_io::Ending;
use hub_run::RunFault;

/// How a command ends whose run was cut off by the fault.
pub fn ending_of_fault<'a>(fault: RunFault) -> Ending<'a>
    ensures { result ≡ ending_of_fault fault }
{
    match fault {
        RunFault::Links => Ending::LinksFailed,
        RunFault::Sink => Ending::WriteFailed,
        RunFault::Memory => Ending::OutOfMemory,
    }
}
