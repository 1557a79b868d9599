ghost use Rattle.std.specs.Prelude.{◌≡◌, ◌^◌, ◌≤◌};
ghost use Rattle.ev_types.specs.Clock.{next_moment};

use ev_types::{LATEST_MOMENT, SECONDS_PER_TURN};
use std::marker::Model;

/// The clock of a client, which contracts see as its moment, in seconds since 1970.
#[derive(Drop)]
pub(crate) struct Clock {
    moment: u64,
}

impl Model for Clock {
    ghost use Rattle.std.specs.Prelude.{ℕ, ◌^◌, ◌≤◌};

    ghost Value = { ℕ };

    ghost view = { λ clock. clock.moment };

    ghost invariant = { λ clock. clock.moment ≤ 2 ^ 40 };
}

impl Clock {
    pub(crate) fn at(start: u64) -> Clock
        requires { start ≤ 2 ^ 40 }
        ensures { result ≡ start }
    {
        Clock { moment: start }
    }

    pub(crate) fn now(&self) -> u64
        ensures value { result ≡ self.now }
        ensures bound { result ≤ 2 ^ 40 }
    {
        self.moment
    }

    /// A turn reads the clock at `secs`. The clock never goes back, and goes on by an hour a turn at most.
    pub(crate) fn pass(&mut self, secs: u64)
        ensures { self.new ≡ next_moment self.old secs }
    {
        let latest = (self.moment + SECONDS_PER_TURN).min(LATEST_MOMENT);
        self.moment = self.moment.max(secs.min(latest));
    }
}
