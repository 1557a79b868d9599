ghost use Rattle.std.specs.Prelude.{◌≡◌};
ghost use Rattle.stream_plan.specs.declared.fault.PlanFault.TheVariants.{Memory as out_of_memory};

use ev_types::{Items, Memory};
use std::fmt;
use thiserror::Error;

/// The way from the top of a plan to a stream: the number of the child at each level, from 0. The streams of
/// `otherwise` are numbered on from those of `children`.
pub type Path = Items<usize>;

/// Why a plan was not taken.
#[derive(Drop, Error)]
pub enum PlanFault {
    /// The stream at the path is refused.
    #[error("stream refused: {why}")]
    Refused { path: Path, why: PlanWhy },
    /// Out of memory.
    #[error("out of memory")]
    Memory,
}

/// For what a stream is refused. The causes are tried in this order over the whole plan, and of each the first stream
/// counts, where a stream comes before those below it.
#[derive(Clone, Copy, Debug, PartialEq, Eq, Error)]
pub enum PlanWhy {
    /// It is stream number 4,097.
    #[error("many")]
    Many,
    /// It is below 64 others.
    #[error("deep")]
    Deep,
    /// It is an `Index` or a `Notice` and has children, or it has streams in `otherwise` and is not a `Where`.
    #[error("children")]
    Children,
    /// A count or a number of seconds is out of its range, a field is set to a value that does not fit it, or it is a
    /// `By` with `idle` that is below another `By`.
    #[error("range")]
    Range,
    /// It does not take what its parent passes on.
    #[error("kind")]
    Kind,
}

impl fmt::Debug for PlanFault {
    fn fmt<W: fmt::Write>(&self, f: &mut fmt::Formatter<W>) -> fmt::Result {
        match self {
            PlanFault::Refused { path, why } => f
                .debug_struct("Refused")
                .field("path", &path.as_slice())
                .field("why", why)
                .finish(),
            PlanFault::Memory => f.write_str("Memory"),
        }
    }
}

impl From<Memory> for PlanFault {
    ghost from_gives = { λ _ fault. fault ≡ out_of_memory };

    fn from(_memory: Memory) -> PlanFault {
        PlanFault::Memory
    }
}
