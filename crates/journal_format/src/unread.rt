ghost use Rattle.std.specs.Prelude.{◌≡◌};
ghost use Rattle.journal_format.specs.declared.unread.Unread.TheVariants.{Memory as out_of_memory};

use ev_types::Memory;
use thiserror::Error;

/// Why no record was read.
#[derive(Clone, Copy, Debug, Error)]
pub enum Unread {
    /// The bytes do not begin with one.
    #[error("not a record")]
    Refused,
    #[error("out of memory")]
    Memory,
}

impl From<Memory> for Unread {
    ghost from_gives = { λ _ why. why ≡ out_of_memory };

    fn from(_memory: Memory) -> Unread {
        Unread::Memory
    }
}
