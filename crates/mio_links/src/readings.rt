ghost use Rattle.std.specs.Prelude.{◌≡◌, ◌+◌, ◌<◌, ◌↔◌, IsTrue};
ghost use Rattle.ev_types.specs.Clock.{seconds_per_turn_limit};
ghost use Rattle.mio_links.specs.Readings.{reached_after};

use ev_types::SECONDS_PER_TURN;

/// The readings of the clock that turns had, in seconds since 1970, as far as they decide whether a turn may wait.
#[derive(Clone, Copy)]
pub struct Readings {
    /// The last reading.
    pub last: u64,
    /// The moment that a server can have reached with the turns so far. In each it comes nearer to the reading by at
    /// most an hour, and it never goes back.
    pub reached: u64,
}

impl Readings {
    /// The first reading, at which a run begins.
    pub fn first(secs: u64) -> Readings
        ensures last { result.last ≡ secs }
        ensures reached { result.reached ≡ secs }
    {
        Readings {
            last: secs,
            reached: secs,
        }
    }

    /// Takes the reading of the next turn.
    pub fn take(&mut self, secs: u64)
        ensures last { self.new.last ≡ secs }
        ensures reached { self.new.reached ≡ reached_after self.old.reached secs }
    {
        self.last = secs;
        let soonest = self.reached.saturating_add(SECONDS_PER_TURN);
        self.reached = self.reached.max(secs.min(soonest));
    }

    /// Whether the clock is more than an hour ahead of the moment that was reached, so that the next turn is not to
    /// wait.
    pub fn are_ahead(&self) -> bool
        ensures { IsTrue result ↔ (self.now.reached + seconds_per_turn_limit < self.now.last) }
    {
        self.last.saturating_sub(self.reached) > SECONDS_PER_TURN
    }
}
