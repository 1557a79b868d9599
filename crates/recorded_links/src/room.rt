//! Memory that links which record are lent, and use again from turn to turn.

use crate::sends::Sends;
use ports::Wants;
use std::alloc::Global;

/// Room for what one journal and the links over it write and note.
#[derive(Drop)]
pub struct RecordRoom {
    /// For the bytes that the journal writes.
    pub written: Vec<u8>,
    /// For what the links note.
    pub turns: TurnRoom,
}

/// Room for what links that record note.
#[derive(Drop)]
pub struct TurnRoom {
    // what came of the sends since the last record
    pub(crate) sends: Sends,
    // the record that is added
    pub(crate) record: Vec<u8>,
    // what is wanted of the inner links
    pub(crate) wants: Wants,
}

impl RecordRoom {
    /// It takes no memory yet.
    pub fn fresh(alloc: Global) -> RecordRoom {
        RecordRoom {
            written: Vec::new(alloc),
            turns: TurnRoom::fresh(alloc),
        }
    }
}

impl TurnRoom {
    /// It takes no memory yet.
    pub fn fresh(alloc: Global) -> TurnRoom {
        TurnRoom {
            sends: Sends::fresh(alloc),
            record: Vec::new(alloc),
            wants: Wants::fresh(alloc),
        }
    }
}
