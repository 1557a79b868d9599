ghost use Rattle.std.specs.Prelude.{◌≡◌};

use ev_types::{Blob, Items};

/// What a journal keeps of a turn, and of the sends since the turn before it.
#[derive(Drop)]
pub struct TurnRecord {
    pub summaries: Summaries,
    /// The turn's reading of the clock, in seconds since 1970.
    pub secs: u64,
    pub event: TurnEvent,
}

/// What came of the sends on one link.
#[derive(Clone, Copy)]
pub struct Summary {
    pub link: u64,
    /// The number of bytes that were taken.
    pub taken: u64,
    /// The last answer.
    pub end: SendEnd,
}

/// Summaries of different links.
pub type Summaries = Items<Summary>;

/// How the last send on a link was answered.
#[derive(Clone, Copy)]
pub enum SendEnd {
    /// It took bytes.
    Took,
    /// It took none.
    Later,
    Failed,
}

/// What happened in a turn.
#[derive(Drop)]
pub enum TurnEvent {
    /// The server began to listen, before its first turn.
    Listen,
    Idle,
    Opened { link: u64 },
    /// From 1 to 65,536 bytes came on the link.
    Read { link: u64, bytes: Blob },
    Ended { link: u64 },
    Broken { link: u64 },
    Room { link: u64 },
}

impl TurnEvent {
    ghost use Rattle.journal_format.specs.Spelling.{is_listen};

    pub fn is_listen(&self) -> bool
        ensures { result ≡ is_listen self.now }
    {
        matches!(self, TurnEvent::Listen)
    }
}
