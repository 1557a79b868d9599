ghost use Rattle.stream_tests.specs.Running.{fault_of};
ghost use Rattle.std.specs.Prelude.{◌≡◌};
ghost use Rattle.stream_tests.specs.declared.fault.RunFault.TheVariants.{Memory as out_of_memory};

use ev_types::Memory;
use pred_eval::BuildFault;
use thiserror::Error;

/// Why a test was not run.
#[derive(Clone, Copy, Debug, PartialEq, Eq, Error)]
pub enum RunFault {
    /// The configuration's pattern of this number, from 0, was refused.
    #[error("config pattern {number} refused")]
    Pattern { number: u32 },
    /// Out of memory.
    #[error("out of memory")]
    Memory,
}

impl From<Memory> for RunFault {
    ghost from_gives = { λ _ fault. fault ≡ out_of_memory };

    fn from(_memory: Memory) -> RunFault {
        RunFault::Memory
    }
}

impl From<BuildFault> for RunFault {
    ghost from_gives = { λ fault made. made ≡ fault_of fault };

    fn from(fault: BuildFault) -> RunFault {
        match fault {
            BuildFault::Pattern { number } => RunFault::Pattern { number },
            BuildFault::Memory => RunFault::Memory,
        }
    }
}
