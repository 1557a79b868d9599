//! Memory that links with a journal are lent.

use crate::{OpenLinks, Replay};
use ev_types::Blob;
use recorded_links::TurnRoom;
use std::alloc::Global;

/// Room for what links with a journal read of it, note and write.
#[derive(Drop)]
pub struct JournalRoom {
    pub(crate) written: Vec<u8>,
    pub(crate) turns: TurnRoom,
    pub(crate) replay: Replay,
    pub(crate) opened: OpenLinks,
    pub(crate) config: Blob,
}

impl JournalRoom {
    /// For a journal that is to be begun or loaded. It takes no memory yet.
    pub fn fresh(alloc: Global) -> JournalRoom {
        JournalRoom {
            written: Vec::new(alloc),
            turns: TurnRoom::fresh(alloc),
            replay: Replay::fresh(alloc),
            opened: OpenLinks::fresh(alloc),
            config: Blob::fresh(alloc),
        }
    }
}
