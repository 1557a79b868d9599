ghost use Rattle.std.specs.Prelude.{◌≡◌};
ghost use Rattle.command_test.specs.Stopping.{stop_of};

use command_io::{ConfigRefusal, Ending};
use stream_tests::RunFault;

/// Why the tests were not all run.
#[derive(Clone, Copy)]
pub(crate) enum Stop {
    /// The configuration's pattern of this number, from 0, was refused.
    Pattern { number: u32 },
    /// The line of a verdict could not be written.
    Write,
    Memory,
}

impl Stop {
    ghost use Rattle.command_test.specs.Stopping.{ending_of};

    /// How the command ends.
    pub(crate) fn ending<'a>(self) -> Ending<'a>
        ensures { result ≡ ending_of self }
    {
        match self {
            Stop::Pattern { number } => Ending::ConfigRefused(ConfigRefusal::Pattern { number }),
            Stop::Write => Ending::WriteFailed,
            Stop::Memory => Ending::OutOfMemory,
        }
    }
}

/// The stop of a test that was not run.
pub(crate) fn stop_of(fault: RunFault) -> Stop
    ensures { result ≡ stop_of fault }
{
    match fault {
        RunFault::Pattern { number } => Stop::Pattern { number },
        RunFault::Memory => Stop::Memory,
    }
}
