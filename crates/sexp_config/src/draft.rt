ghost use Rattle.ev_types.specs.Interval.{IsInterval};

use crate::server::Server;
use config_streams::Below;
use ev_types::Expiry;

/// What was read of a configuration so far.
#[derive(Drop)]
pub(crate) struct Draft {
    pub(crate) server: Option<Server>,
    pub(crate) expiry: Option<Expiry>,
    pub(crate) below: Below,
    ghost interval: { IsInterval expiry },
}
