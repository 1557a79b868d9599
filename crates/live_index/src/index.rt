ghost use Rattle.std.specs.Prelude.{◌≡◌, ◌+◌, ◌-◌, ◌*◌, ◌^◌, ◌≤◌, false, [], ◌∷◌, ◌++◌, filter, length, take, option_copied, IsErr, IsNone, IsSome, IsTrue, IfOk, OnErr, OnOk};
ghost use Rattle.list_laws.specs.Prefix.{IsPrefix};
ghost use Rattle.ev_types.specs.Expiry.{is_expired};
ghost use Rattle.index_log.specs.Live.{IndexLog, Reap, Write};
ghost use Rattle.std.specs.Borrow.{sem};
ghost use Rattle.live_index.specs.Index.{Represents, event_at, events_lent, reply_len, visited};
ghost use Rattle.pred_eval.specs.Tree.{Always};
ghost use Rattle.pred_eval.specs.Truth.{holds};

mod packed;

use crate::slots::Slots;
use ev_types::{Event, Events, Memory, Text};
use packed_event::PackedEvent;
use pred_eval::Pred;
use std::alloc::Global;
use std::marker::Model;
use step_count::{Ledger, Steps};
use stored_event::{EventForm, MeasuredEvent, Stored};

/// An index of events, one for each host and service. Contracts see its live events, by host and then by service,
/// absent before present, and whether a change ran out of memory: then it is poisoned, and each later call
/// that can answer `Memory` does.
pub struct EventIndex<P: EventForm> {
    slots: Slots<P>,
    poisoned: bool,
    // How many bytes a reply has with all live events, if that was asked for since the last change.
    all_len: Option<usize>,
}

impl<P: EventForm> Drop for EventIndex<P> {
    fn drop(self) {
        let EventIndex {
            slots: _slots,
            poisoned: _poisoned,
            all_len: _all_len,
        } = self;
    }
}

/// An index in which each event owns its parts.
pub type LiveIndex = EventIndex<MeasuredEvent>;

/// An index in which an event owns its parts, or is kept as its bytes.
pub type PackedIndex = EventIndex<PackedEvent>;

impl<P: EventForm> Model for EventIndex<P> {
    ghost use Rattle.std.specs.Prelude.{◌≡◌, false, IfSome};
    ghost use Rattle.live_index.specs.Index.{Index, reply_len};
    ghost use Rattle.live_index.specs.Slots.{IsStored, events_unless};

    ghost Value = { Index };

    ghost view = { λ index. record {
      events = events_unless index.poisoned index.slots.numbers index.slots.events.values;
      poisoned = index.poisoned;
    } };

    ghost invariant = { λ index. (index.poisoned ≡ false →
        IsStored index.slots.numbers index.slots.events.values index.slots.due index.slots.count)
        × IfSome index.all_len (λ len. len ≡ reply_len
        (events_unless index.poisoned index.slots.numbers index.slots.events.values)) };
}

impl<P: EventForm> EventIndex<P> {
    /// An index in which nothing was written. It takes no memory.
    pub fn fresh(alloc: Global) -> EventIndex<P>
        ensures { Represents result [] }
    {
        EventIndex {
            slots: Slots::fresh(alloc),
            poisoned: false,
            all_len: None,
        }
    }

    /// Writes an event in the place of the live one of its host and service. One whose state is "expired" only
    /// removes that one. It is moved out of `event`, and what is left there is not specified. After `Memory` the
    /// index is poisoned.
    pub fn put(&mut self, alloc: Global, event: &mut Event) -> Result<(), Memory>
        ensures ok { OnOk result ((log : IndexLog) → Represents self.old log →
            Represents self.new (log ++ Write event.old ∷ [])) }
        ensures sound { OnOk result (self.new.poisoned ≡ false) }
        ensures err { OnErr result (IsTrue self.new.poisoned) }
        ensures poisoned { IsTrue self.old.poisoned → IsErr result }
    {
        if self.poisoned {
            return Err(Memory);
        }
        self.poisoned = true;
        self.all_len = None;
        self.slots.write(alloc, event)?;
        self.poisoned = false;
        Ok(())
    }

    /// Removes the live events that are expired at the moment `now`, in seconds since 1970, at most 2^40, and
    /// appends them to `out` in the order of the index. After `Memory` the index is poisoned, and `out`
    /// begins with what it had.
    pub fn reap<G: Ledger>(
        &mut self,
        alloc: Global,
        now: u64,
        out: &mut Events,
        steps: &mut Steps<G>,
    ) -> Result<(), Memory>
        requires { now ≤ 2 ^ 40 }
        ensures ok { OnOk result ((log : IndexLog) → Represents self.old log →
            Represents self.new (log ++ Reap now ∷ [])) }
        ensures sound { OnOk result (self.new.poisoned ≡ false) }
        ensures expired { OnOk result (out.new ≡ out.old
            ++ filter (is_expired now) self.old.events) }
        ensures err { OnErr result (IsTrue self.new.poisoned) }
        ensures prefix { OnErr result (IsPrefix out.old out.new) }
        ensures poisoned { IsTrue self.old.poisoned → IsErr result }
        ensures forks { steps.new.forks ≡ steps.old.forks }
        ensures entries { steps.new.entries ≤ steps.old.entries
            + 2 * length (filter (is_expired now) self.old.events) }
        ensures at_least { steps.old.entries ≤ steps.new.entries }
        ensures began { steps.new.began ≡ steps.old.began }
    {
        if self.poisoned {
            return Err(Memory);
        }
        self.poisoned = true;
        self.all_len = None;
        self.slots.take_expired(alloc, now, out, steps)?;
        self.poisoned = false;
        Ok(())
    }

    /// Appends copies of the live events that meet the predicate, in the order of the index. Where the predicate asks
    /// for a host it looks at the events of that host alone. It counts an entry for each event that it looks at. After
    /// `Memory` the index is as it was, and `out` begins with what it had.
    pub fn search<G: Ledger>(
        &mut self,
        alloc: Global,
        pred: &mut Pred,
        out: &mut Events,
        steps: &mut Steps<G>,
    ) -> Result<(), Memory>
        ensures same { self.new ≡ self.old }
        ensures pred { pred.new ≡ pred.old }
        ensures ok { OnOk result (out.new ≡ out.old ++ filter (holds pred.old) self.old.events) }
        ensures prefix { OnErr result (IsPrefix out.old out.new) }
        ensures poisoned { IsTrue self.old.poisoned → IsErr result }
        ensures forks { steps.new.forks ≡ steps.old.forks }
        ensures counted { OnOk result (steps.new.entries ≡ steps.old.entries
            + length (visited pred.old self.old.events)) }
        ensures entries { steps.new.entries ≤ steps.old.entries
            + length (visited pred.old self.old.events) }
        ensures at_least { steps.old.entries ≤ steps.new.entries }
        ensures began { steps.new.began ≡ steps.old.began }
    {
        if self.poisoned {
            return Err(Memory);
        }
        self.slots.copy_matching(alloc, pred, out, steps)?;
        Ok(())
    }

    /// Appends the live events that meet the predicate, where they lie, in the order of the index. It looks at the
    /// events that [`EventIndex::search`] looks at, and counts as many entries. After `Memory` `found` begins with what
    /// it had.
    pub fn find<'a, G: Ledger>(
        &'a self,
        alloc: Global,
        pred: &mut Pred,
        found: &mut Vec<&'a Stored<P>>,
        steps: &mut Steps<G>,
    ) -> Result<(), Memory>
        ensures pred { pred.new ≡ pred.old }
        ensures ok { OnOk result (events_lent found.new.items
            ≡ events_lent found.old.items ++ filter (holds pred.old) self.now.events) }
        ensures prefix { OnErr result (IsPrefix (events_lent found.old.items)
            (events_lent found.new.items)) }
        ensures poisoned { IsTrue self.now.poisoned → IsErr result }
        ensures forks { steps.new.forks ≡ steps.old.forks }
        ensures counted { OnOk result (steps.new.entries ≡ steps.old.entries
            + length (visited pred.old self.now.events)) }
        ensures entries { steps.new.entries ≤ steps.old.entries
            + length (visited pred.old self.now.events) }
        ensures at_least { steps.old.entries ≤ steps.new.entries }
        ensures began { steps.new.began ≡ steps.old.began }
    {
        if self.poisoned {
            return Err(Memory);
        }
        self.slots.find(alloc, pred, found, steps)?;
        Ok(())
    }

    /// Appends the first `limit` live events that meet the predicate, where they lie, in the order of the index. It
    /// stops at the last of them, and counts no more entries than [`EventIndex::find`]. After `Memory` `found` begins
    /// with what it had.
    pub fn find_first<'a, G: Ledger>(
        &'a self,
        alloc: Global,
        pred: &mut Pred,
        limit: usize,
        found: &mut Vec<&'a Stored<P>>,
        steps: &mut Steps<G>,
    ) -> Result<(), Memory>
        ensures pred { pred.new ≡ pred.old }
        ensures ok { OnOk result (events_lent found.new.items ≡ events_lent found.old.items
            ++ take limit (filter (holds pred.old) self.now.events)) }
        ensures prefix { OnErr result (IsPrefix (events_lent found.old.items)
            (events_lent found.new.items)) }
        ensures poisoned { IsTrue self.now.poisoned → IsErr result }
        ensures forks { steps.new.forks ≡ steps.old.forks }
        ensures entries { steps.new.entries ≤ steps.old.entries
            + length (visited pred.old self.now.events) }
        ensures at_least { steps.old.entries ≤ steps.new.entries }
        ensures began { steps.new.began ≡ steps.old.began }
    {
        if self.poisoned {
            return Err(Memory);
        }
        self.slots.find_first(alloc, pred, limit, found, steps)
    }

    /// Lists the keys in order, where a search for the predicate has to look at all of them. The list is kept until a
    /// key is added or removed; without it each search walks the keys. The index stays as it is.
    pub fn prepare(&mut self, alloc: Global, pred: &Pred) -> Result<(), Memory>
        ensures same { self.new ≡ self.old }
        ensures poisoned { IsTrue self.old.poisoned → IsErr result }
    {
        if self.poisoned {
            return Err(Memory);
        }
        self.slots.prepare(alloc, pred)
    }

    /// How many bytes a reply has with the live events that meet the predicate, as those that [`EventIndex::find`]
    /// lends. It looks at as many events, and counts as many entries. `Memory`: also where the bytes are more than a
    /// `usize` can count.
    pub fn found_len<G: Ledger>(
        &mut self,
        alloc: Global,
        pred: &mut Pred,
        steps: &mut Steps<G>,
    ) -> Result<usize, Memory>
        ensures same { self.new ≡ self.old }
        ensures pred { pred.new ≡ pred.old }
        ensures ok { IfOk result (λ len. len
            ≡ reply_len (filter (holds pred.old) self.old.events)) }
        ensures poisoned { IsTrue self.old.poisoned → IsErr result }
        ensures forks { steps.new.forks ≡ steps.old.forks }
        ensures counted { OnOk result (steps.new.entries ≡ steps.old.entries
            + length (visited pred.old self.old.events)) }
        ensures entries { steps.new.entries ≤ steps.old.entries
            + length (visited pred.old self.old.events) }
        ensures at_least { steps.old.entries ≤ steps.new.entries }
        ensures began { steps.new.began ≡ steps.old.began }
    {
        if self.poisoned {
            return Err(Memory);
        }
        self.slots.found_len(alloc, pred, steps)
    }

    /// What [`EventIndex::found_len`] gives for the predicate that every event meets. It counts no more entries.
    pub fn all_len<G: Ledger>(
        &mut self,
        alloc: Global,
        pred: &mut Pred,
        steps: &mut Steps<G>,
    ) -> Result<usize, Memory>
        requires { pred.old ≡ Always }
        ensures same { self.new ≡ self.old }
        ensures pred { pred.new ≡ pred.old }
        ensures ok { IfOk result (λ len. len
            ≡ reply_len (filter (holds pred.old) self.old.events)) }
        ensures poisoned { IsTrue self.old.poisoned → IsErr result }
        ensures forks { steps.new.forks ≡ steps.old.forks }
        ensures entries { steps.new.entries ≤ steps.old.entries
            + length (visited pred.old self.old.events) }
        ensures at_least { steps.old.entries ≤ steps.new.entries }
        ensures began { steps.new.began ≡ steps.old.began }
    {
        if self.poisoned {
            return Err(Memory);
        }
        // The length is kept until the index changes.
        if let Some(len) = self.all_len {
            return Ok(len);
        }
        let len = self.slots.found_len(alloc, pred, steps)?;
        self.all_len = Some(len);
        Ok(len)
    }

    /// Whether a change ran out of memory. An index that is not poisoned represents some log.
    pub fn is_poisoned(&self) -> bool
        ensures poisoned { result ≡ self.now.poisoned }
        ensures represents { self.now.poisoned ≡ false →
            (log : IndexLog) × Represents self.now log }
    {
        self.poisoned
    }

    /// How many events are live.
    pub fn len(&self) -> usize
        ensures { result ≡ length self.now.events }
    {
        if self.poisoned { 0 } else { self.slots.len() }
    }
}

impl LiveIndex {
    ghost use Rattle.live_index.specs.Lending.{StaysTheSame};

    /// The live event of this host and this service, each of which may be absent. It counts an entry where there is
    /// one. It takes no memory, and the index stays as it is. A poisoned one has no events.
    pub fn get<G: Ledger>(
        &mut self,
        host: Option<&Text>,
        service: Option<&Text>,
        steps: &mut Steps<G>,
    ) -> Option<&Event>
        ensures* same { sem 𝓛 (StaysTheSame self.entry) }
        ensures event { option_copied result
            ≡ event_at (option_copied host.entry) (option_copied service.entry) self.old.events }
        ensures forks { steps.new.forks ≡ steps.old.forks }
        ensures found { IsSome result → steps.new.entries ≡ steps.old.entries + 1 }
        ensures absent { IsNone result → steps.new.entries ≡ steps.old.entries }
        ensures entries { steps.new.entries ≤ steps.old.entries + 1 }
        ensures began { steps.new.began ≡ steps.old.began }
    {
        if self.poisoned {
            return None;
        }
        self.slots.get(host, service, steps)
    }
}
