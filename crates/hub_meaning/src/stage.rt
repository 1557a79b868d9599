ghost use Rattle.std.specs.Prelude.{◌≡◌, ◌&&◌, ◌||◌, nat_lt, not};
ghost use Rattle.hub_meaning.specs.Links.{is_open_stage, is_over_as, is_read_closed_stage};

/// Where a link is in its life.
#[derive(Clone, Copy, Debug, PartialEq, Eq)]
pub enum Stage {
    /// Its bytes are read.
    Open,
    /// No more of its bytes are read. It is closed once nothing is unsent.
    ReadClosed,
    /// It is closed in this turn, whatever is unsent.
    Closing,
    Closed,
}

impl Stage {
    /// Whether a link of this stage is sent to, if it is `blocked` or not, and `unsent` bytes are unsent.
    pub fn can_send(self, blocked: bool, unsent: usize) -> bool
        ensures { result ≡ ((is_open_stage self || is_read_closed_stage self)
            && (not blocked && nat_lt 0 unsent)) }
    {
        match self {
            Stage::Open | Stage::ReadClosed => !blocked && unsent > 0,
            Stage::Closing | Stage::Closed => false,
        }
    }

    /// Whether a link of this stage is to be closed while `unsent` bytes are unsent.
    pub fn is_over(self, unsent: usize) -> bool
        ensures { result ≡ is_over_as self unsent }
    {
        match self {
            Stage::ReadClosed => unsent == 0,
            Stage::Closing => true,
            Stage::Open | Stage::Closed => false,
        }
    }
}
