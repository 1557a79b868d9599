ghost use Rattle.std.specs.Prelude.{◌≡◌};
ghost use Rattle.turn_journal.specs.declared.fault.JournalFault.TheVariants.{Memory as out_of_memory};
ghost use Rattle.turn_journal.specs.Loading.{fault_of};

use disk_port::DiskError;
use ev_types::Memory;
use thiserror::Error;

/// Why no journal was begun or loaded.
#[derive(Clone, Copy, Debug, PartialEq, Eq, Error)]
pub enum JournalFault {
    /// The gate, length, configuration or record that begins at `place` does not fit.
    #[error("journal refused at {place}")]
    Refused { place: u64 },
    #[error("disk failed")]
    DiskFault,
    #[error("out of memory")]
    Memory,
}

impl From<Memory> for JournalFault {
    ghost from_gives = { λ _ fault. fault ≡ out_of_memory };

    fn from(_memory: Memory) -> JournalFault {
        JournalFault::Memory
    }
}

impl From<DiskError> for JournalFault {
    ghost from_gives = { λ error fault. fault ≡ fault_of error };

    fn from(error: DiskError) -> JournalFault {
        match error {
            DiskError::Failed => JournalFault::DiskFault,
            DiskError::Memory => JournalFault::Memory,
        }
    }
}
