use ev_types::{Expiry, Text};
use stream_plan::ReadyPlan;

/// What a server is run with.
#[derive(Drop)]
pub struct Setup {
    /// Where it listens, as a text `HOST:PORT`.
    pub address: Text,
    pub plan: ReadyPlan,
    /// How expired events are looked for, from once a second to once in 604,800 seconds.
    pub expiry: Option<Expiry>,
}
