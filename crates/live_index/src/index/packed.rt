//! Events that are written as their bytes.

ghost use Rattle.std.specs.Prelude.{◌≡◌, false, [], ◌∷◌, ◌++◌, IsErr, IsTrue, OnErr, OnOk};
ghost use Rattle.index_log.specs.Live.{IndexLog, Write};
ghost use Rattle.live_index.specs.Index.{Represents};

use crate::PackedIndex;
use ev_types::Memory;
use packed_event::PackedRef;
use std::alloc::Global;

impl PackedIndex {
    /// Writes as [`EventIndex::put`](crate::EventIndex::put) does, an event whose bytes lie elsewhere, which are copied.
    pub fn put_packed(&mut self, alloc: Global, event: &PackedRef<'_>) -> Result<(), Memory>
        ensures ok { OnOk result ((log : IndexLog) → Represents self.old log →
            Represents self.new (log ++ Write event.now ∷ [])) }
        ensures sound { OnOk result (self.new.poisoned ≡ false) }
        ensures err { OnErr result (IsTrue self.new.poisoned) }
        ensures poisoned { IsTrue self.old.poisoned → IsErr result }
    {
        if self.poisoned {
            return Err(Memory);
        }
        self.poisoned = true;
        self.all_len = None;
        self.slots.write_packed(alloc, event)?;
        self.poisoned = false;
        Ok(())
    }
}
