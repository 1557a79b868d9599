ghost use Rattle.std.specs.Prelude.{◌≡◌};

use std::alloc::{AllocError, AllocFailed};
use std::io;

/// Why no turn can be given.
#[derive(Clone, Copy)]
pub(crate) enum LinksFault {
    /// The system refused a call that concerns more than one link.
    Failed,
    /// Out of memory.
    Memory,
}

impl From<AllocError> for LinksFault {
    ghost use Rattle.mio_links.specs.declared.fault.LinksFault.TheVariants.{Memory};

    ghost from_gives = { λ _ fault. fault ≡ Memory };

    fn from(_error: AllocError) -> LinksFault {
        LinksFault::Memory
    }
}

impl<T: Drop> From<AllocFailed<T>> for LinksFault {
    ghost use Rattle.mio_links.specs.declared.fault.LinksFault.TheVariants.{Memory};

    ghost from_gives = { λ _ fault. fault ≡ Memory };

    fn from(_error: AllocFailed<T>) -> LinksFault {
        LinksFault::Memory
    }
}

impl From<io::Error> for LinksFault {
    ghost use Rattle.mio_links.specs.declared.fault.LinksFault.TheVariants.{Failed};

    ghost from_gives = { λ _ fault. fault ≡ Failed };

    fn from(_error: io::Error) -> LinksFault {
        LinksFault::Failed
    }
}
