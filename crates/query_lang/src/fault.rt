ghost use Rattle.std.specs.Prelude.{◌≡◌};
ghost use Rattle.query_lang.specs.declared.fault.QueryFault.TheVariants.{Memory as out_of_memory};

use crate::MAX_BYTES;
use ev_types::Memory;
use thiserror::Error;

/// Why a text was not read as a query.
#[derive(Clone, Copy, Debug, PartialEq, Eq, Error)]
pub enum QueryFault {
    /// The text has `length` bytes, which are more than 4,096.
    #[error("query of {length} bytes over {most}", most = MAX_BYTES)]
    TooLong { length: usize },
    /// No query goes on as the text does at `place`, counted in bytes from its start: there is a token that may
    /// not come here, or no token, or the text ends, and then `place` is its length.
    #[error("query refused at {place}")]
    Refused { place: usize },
    /// At `place` is the 65th token that is `(` or `not`, where the grammar allows it.
    #[error("query too deep at {place}")]
    TooDeep { place: usize },
    /// Out of memory.
    #[error("out of memory")]
    Memory,
}

impl From<Memory> for QueryFault {
    ghost from_gives = { λ _ fault. fault ≡ out_of_memory };

    fn from(_memory: Memory) -> QueryFault {
        QueryFault::Memory
    }
}
