ghost use Rattle.std.specs.Prelude.{◌≡◌};
ghost use Rattle.client_run.specs.declared.outcome.RunFault.TheVariants.{Memory as out_of_memory};
ghost use Rattle.client_run.specs.Taking.{answer_of};

use ev_types::Memory;
use riemann_client::{Msgs, Progress};
use riemann_msg::MsgWhy;
use thiserror::Error;

/// How an exchange ended.
#[derive(Clone, Copy, Debug, PartialEq, Eq)]
pub enum Outcome {
    /// Each request has a reply.
    Whole,
    /// The reply of this number, from 0, became whole in a turn before which the request of that number was not sent
    /// whole.
    Unasked {
        number: u64,
    },
    /// The reply of this number, from 0, is not a message, for the first fault, at `place` in its body.
    Refused {
        number: u64,
        place: usize,
        why: MsgWhy,
    },
    /// Requests are left without a reply, and no reply can come, or no turn is left.
    Lost,
}

/// What an exchange came to.
#[derive(Drop)]
pub struct Exchanged {
    /// The replies that were accepted, in order.
    pub replies: Msgs,
    pub outcome: Outcome,
}

/// Why an exchange did not come to its end.
#[derive(Clone, Copy, Debug, PartialEq, Eq, Error)]
pub enum RunFault {
    /// The address can't be connected to, or the links failed.
    #[error("links failed")]
    Links,
    #[error("out of memory")]
    Memory,
}

impl From<Memory> for RunFault {
    ghost from_gives = { λ _ fault. fault ≡ out_of_memory };

    fn from(_memory: Memory) -> RunFault {
        RunFault::Memory
    }
}

/// The outcome of an exchange of which a turn came to this, if it is over.
pub(crate) fn answer_of(progress: Progress) -> Result<Option<Outcome>, RunFault>
    ensures { result ≡ answer_of progress }
{
    match progress {
        Progress::More => Ok(None),
        Progress::Whole => Ok(Some(Outcome::Whole)),
        Progress::Unasked { number } => Ok(Some(Outcome::Unasked { number })),
        Progress::Refused { number, place, why } => {
            Ok(Some(Outcome::Refused { number, place, why }))
        }
        Progress::Lost => Ok(Some(Outcome::Lost)),
        Progress::Memory => Err(RunFault::Memory),
    }
}
