//! What a server decides by a number alone.
ghost use Rattle.std.specs.Prelude.{◌≡◌, ◌+◌, ◌^◌, ◌≤◌, nat_le, nat_lt};
ghost use Rattle.ev_types.specs.Clock.{next_moment, seconds_per_turn_limit};
ghost use Rattle.hub_meaning.specs.Links.{connected_limit};

use ev_types::{LATEST_MOMENT, SECONDS_PER_TURN};
use framing::BODY_LIMIT;

/// How many links are connected at most.
const CONNECTED_LIMIT: usize = 256;

/// Whether one more link is connected if `count` are.
pub fn may_connect(count: usize) -> bool
    ensures { result ≡ nat_lt count connected_limit }
{
    count < CONNECTED_LIMIT
}

/// Whether a link with `unsent` bytes unsent is too busy for the answer to a query.
pub fn is_busy(unsent: usize) -> bool
    ensures { result ≡ nat_le BODY_LIMIT unsent }
{
    unsent >= BODY_LIMIT as usize
}

/// Whether a reply of `size` bytes may be sent.
pub fn fits(size: usize) -> bool
    ensures { result ≡ nat_le size BODY_LIMIT }
{
    size <= BODY_LIMIT as usize
}

/// The moment of a turn that reads the clock at `secs`. The clock never goes back, and goes on by an hour a turn at
/// most.
pub fn next_moment(now: u64, secs: u64) -> u64
    requires { now ≤ 2 ^ 40 }
    ensures moment { result ≡ next_moment now secs }
    ensures from { now ≤ result }
    ensures hour { result ≤ now + seconds_per_turn_limit }
    ensures bound { result ≤ 2 ^ 40 }
{
    now.max(secs.min((now + SECONDS_PER_TURN).min(LATEST_MOMENT)))
}
