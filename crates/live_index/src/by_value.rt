//! The call that takes an event by value.

ghost use Rattle.std.specs.Prelude.{◌≡◌, false, [], ◌∷◌, ◌++◌, IsErr, IsTrue, OnErr, OnOk};
ghost use Rattle.index_log.specs.Live.{IndexLog, Write};
ghost use Rattle.live_index.specs.Index.{Represents};

use crate::EventIndex;
use ev_types::{Event, Memory};
use std::alloc::Global;
use stored_event::EventForm;

impl<P: EventForm> EventIndex<P> {
    /// Writes as [`EventIndex::put`] does, but takes the event by value.
    pub fn write(&mut self, alloc: Global, mut event: Event) -> Result<(), Memory>
        ensures ok { OnOk result ((log : IndexLog) → Represents self.old log →
            Represents self.new (log ++ Write event ∷ [])) }
        ensures sound { OnOk result (self.new.poisoned ≡ false) }
        ensures err { OnErr result (IsTrue self.new.poisoned) }
        ensures poisoned { IsTrue self.old.poisoned → IsErr result }
    {
        self.put(alloc, &mut event)
    }
}
