ghost use Rattle.std.specs.Prelude.{◌≡◌};
ghost use Rattle.conn_core.specs.declared.stop.Stop.TheVariants.{Memory as out_of_memory};

use ev_types::Memory;
use thiserror::Error;

/// Why a hub stopped in the middle of a turn.
#[derive(Clone, Copy, Debug, PartialEq, Eq, Error)]
pub enum Stop {
    #[error("out of memory")]
    Memory,
    /// The sink of the notice lines failed. It may have got a prefix of the turn's lines.
    #[error("a notice line could not be written")]
    SinkFault,
}

impl From<Memory> for Stop {
    ghost from_gives = { λ _ stop. stop ≡ out_of_memory };

    fn from(_memory: Memory) -> Stop {
        Stop::Memory
    }
}
