use ev_types::{Expiry, Text};
use stream_plan::CheckedPlan;

/// What a server does: where it listens, how it looks for expired events, and the streams that get every event.
#[derive(Drop)]
pub struct Config {
    pub host: Text,
    pub port: u16,
    pub expiry: Option<Expiry>,
    pub plan: CheckedPlan,
}
