//! Memory that is used again from one message to the next.

use ev_types::Event;
use riemann_msg::SpentEvents;
use std::alloc::Global;

/// Memory that messages are read into. What it holds between two messages does not matter.
#[derive(Drop)]
pub struct Spare {
    /// The events of a message before, into which the next one is read.
    pub(crate) events: SpentEvents,
    /// An event into which one is unpacked where a stream looks at it.
    pub(crate) event: Event,
}

impl Spare {
    /// No memory yet. It takes none.
    pub fn fresh(alloc: Global) -> Spare {
        Spare {
            events: SpentEvents::fresh(alloc),
            event: Event::at(alloc, 0),
        }
    }
}
