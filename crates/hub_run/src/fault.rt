ghost use Rattle.std.specs.Prelude.{◌≡◌};
ghost use Rattle.hub_run.specs.Taking.{fault_of};
ghost use Rattle.hub_run.specs.declared.fault.RunFault.TheVariants.{Memory as out_of_memory};

use conn_core::Stop;
use ev_types::Memory;
use thiserror::Error;

/// Why a run did not come to its last turn.
#[derive(Clone, Copy, Debug, PartialEq, Eq, Error)]
pub enum RunFault {
    /// The address can't be listened on, or the links failed.
    #[error("links failed")]
    Links,
    /// A notice line could not be written.
    #[error("a notice line could not be written")]
    Sink,
    #[error("out of memory")]
    Memory,
}

impl From<Memory> for RunFault {
    ghost from_gives = { λ _ fault. fault ≡ out_of_memory };

    fn from(_memory: Memory) -> RunFault {
        RunFault::Memory
    }
}

impl From<Stop> for RunFault {
    ghost from_gives = { λ stop fault. fault ≡ fault_of stop };

    fn from(stop: Stop) -> RunFault {
        match stop {
            Stop::SinkFault => RunFault::Sink,
            Stop::Memory => RunFault::Memory,
        }
    }
}
