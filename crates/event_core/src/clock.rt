ghost use Rattle.std.specs.Prelude.{◌^◌, ◌<◌, ◌≤◌};
ghost use Rattle.std.specs.Option.{ForSome};

use ev_types::Expiry;

/// The moment of the last second that has passed, where seconds began, and how often the index is searched for expired
/// events.
#[derive(Drop)]
pub(crate) struct Clock {
    pub(crate) expiry: Option<Expiry>,
    pub(crate) start: u64,
    pub(crate) moment: u64,
    ghost bounded: { moment ≤ 2 ^ 40 },
    ghost positive: { ForSome expiry (λ set. 0 < set.interval) },
}
