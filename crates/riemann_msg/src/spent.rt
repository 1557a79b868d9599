//! Events that nobody needs any more, for their memory.

ghost use Rattle.std.specs.Prelude.{◌≡◌, ◌<◌, ◌≤◌, [], length};
ghost use Rattle.riemann_msg.specs.Cleared.{AreCleared};

use ev_types::{Event, Events};
use std::alloc::Global;
use std::marker::Model;

/// At most this many events are kept for their memory.
pub const SPENT_LIMIT: usize = 128;

/// Events that nobody needs any more, into whose memory a message is read. Each of them is cleared: it holds nothing,
/// and its time is 0.
#[derive(Drop)]
pub struct SpentEvents {
    events: Events,
}

impl Model for SpentEvents {
    ghost use Rattle.std.specs.Prelude.{List};
    ghost use Rattle.ev_types.specs.declared.event.Event.{Event as OneEvent};
    ghost use Rattle.riemann_msg.specs.Cleared.{AreCleared};

    ghost Value = { List OneEvent };

    ghost view = { λ spent. spent.events };

    ghost invariant = { λ spent. AreCleared spent.events };
}

impl SpentEvents {
    /// No events. It takes no memory.
    pub fn fresh(alloc: Global) -> SpentEvents
        ensures { result ≡ [] }
    {
        SpentEvents {
            events: Events::fresh(alloc),
        }
    }

    /// The events, with no copy, or none where they are more than [`SPENT_LIMIT`].
    pub fn of_cleared(alloc: Global, events: Vec<Event>) -> SpentEvents
        requires { AreCleared events.items }
        ensures few { length events.items ≤ SPENT_LIMIT → result ≡ events.items }
        ensures many { SPENT_LIMIT < length events.items → result ≡ [] }
    {
        if events.len() > SPENT_LIMIT {
            return SpentEvents::fresh(alloc);
        }
        SpentEvents {
            events: Events::from_vec(events),
        }
    }

    /// The events as a list, with no copy.
    pub(crate) fn into_events(self) -> Events
        ensures { AreCleared result }
    {
        self.events
    }
}
