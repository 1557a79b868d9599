ghost use Rattle.std.specs.Prelude.{◌≡◌, ℕ, ◌^◌, ◌≤◌, false, option_copied, None, Some, IfOk, OnOk};
ghost use Rattle.ev_types.specs.Expiry.{ends_key, is_late};
ghost use Rattle.key_map.specs.Keys.{number_at};
ghost use Rattle.linked_slots.specs.Table.{Changes, IsLive};
ghost use Rattle.live_index.specs.Slots.{is_by, key_of, slot_of, IsStored, Puts};

use super::{NewKey, Slots, due_of, set_due};
use ev_types::{Memory, Text};
use linked_slots::StepTable;
use packed_event::{PackedEvent, PackedRef};
use std::alloc::Global;
use step_count::{NoLedger, Steps};
use stored_event::{KeyRef, Stored};

impl Slots<PackedEvent> {
    /// Copies the event into the slots, in place of the one of its host and service. An event whose state is "expired"
    /// is not copied, and only ends that one.
    pub(crate) fn write_packed(
        &mut self,
        alloc: Global,
        event: &PackedRef<'_>,
    ) -> Result<(), Memory>
        requires { IsStored self.old.numbers self.old.events.values self.old.due self.old.count }
        ensures stored { OnOk result
            (IsStored self.new.numbers self.new.events.values self.new.due self.new.count) }
        ensures puts { OnOk result (Puts (key_of event.now) (slot_of event.now)
            self.old.numbers self.old.events.values self.new.numbers self.new.events.values) }
    {
        if event.ends_key() {
            return self.end_packed(alloc, event);
        }
        self.enter_packed(alloc, event)
    }

    /// Removes the event of the host and service of this one, if there is one.
    #[inline(never)]
    fn end_packed(&mut self, alloc: Global, event: &PackedRef<'_>) -> Result<(), Memory>
        requires { IsStored self.old.numbers self.old.events.values self.old.due self.old.count }
        ensures stored { OnOk result
            (IsStored self.new.numbers self.new.events.values self.new.due self.new.count) }
        ensures puts { OnOk result (Puts (key_of event.now) None
            self.old.numbers self.old.events.values self.new.numbers self.new.events.values) }
    {
        let host = owned_text(alloc, event.host())?;
        let service = owned_text(alloc, event.service())?;
        self.end(host.as_ref(), service.as_ref());
        Ok(())
    }

    /// Copies the event, which does not end its key, into the slots, in place of the one of its host and service.
    #[inline(always)]
    fn enter_packed(&mut self, alloc: Global, event: &PackedRef<'_>) -> Result<(), Memory>
        requires stored { IsStored self.old.numbers self.old.events.values
            self.old.due self.old.count }
        requires current { ends_key event.now ≡ false }
        ensures stored { OnOk result
            (IsStored self.new.numbers self.new.events.values self.new.due self.new.count) }
        ensures puts { OnOk result (Puts (key_of event.now) (Some event.now)
            self.old.numbers self.old.events.values self.new.numbers self.new.events.values) }
    {
        let key = KeyRef::of_ref(event);
        let hash = key.hash();
        match self.hinted(hash, key) {
            Some(number) => self.replace_packed(alloc, number, event),
            None => self.enter_packed_unhinted(alloc, hash, event),
        }
    }

    /// The same, where no hint gives the number of the event's host and service, which have this hash.
    #[inline(never)]
    fn enter_packed_unhinted(
        &mut self,
        alloc: Global,
        hash: u64,
        event: &PackedRef<'_>,
    ) -> Result<(), Memory>
        requires stored { IsStored self.old.numbers self.old.events.values
            self.old.due self.old.count }
        requires current { ends_key event.now ≡ false }
        ensures stored { OnOk result
            (IsStored self.new.numbers self.new.events.values self.new.due self.new.count) }
        ensures puts { OnOk result (Puts (key_of event.now) (Some event.now)
            self.old.numbers self.old.events.values self.new.numbers self.new.events.values) }
    {
        let host = owned_text(alloc, event.host())?;
        let service = owned_text(alloc, event.service())?;
        match self.numbers.get(host.as_ref(), service.as_ref()) {
            Some(number) => {
                self.hints.note(hash, number);
                self.replace_packed(alloc, number, event)
            }
            None => {
                let key = NewKey {
                    hash,
                    host,
                    service,
                };
                self.put_packed(alloc, key, event)
            }
        }
    }

    /// Copies the event in place of the one of this number, which is of the same host and service.
    #[inline(always)]
    fn replace_packed(
        &mut self,
        alloc: Global,
        number: usize,
        event: &PackedRef<'_>,
    ) -> Result<(), Memory>
        requires stored { IsStored self.old.numbers self.old.events.values
            self.old.due self.old.count }
        requires known { number_at (key_of event.now) self.old.numbers ≡ Some number }
        requires current { ends_key event.now ≡ false }
        ensures stored { OnOk result
            (IsStored self.new.numbers self.new.events.values self.new.due self.new.count) }
        ensures puts { OnOk result (Puts (key_of event.now) (Some event.now)
            self.old.numbers self.old.events.values self.new.numbers self.new.events.values) }
    {
        let due = due_moment(event);
        copy_at(alloc, &mut self.events, number, event)?;
        set_due(alloc, &mut self.due, number, due)?;
        Ok(())
    }

    /// Adds a copy of the event of this key, which has none yet.
    fn put_packed(
        &mut self,
        alloc: Global,
        key: NewKey,
        event: &PackedRef<'_>,
    ) -> Result<(), Memory>
        requires stored { IsStored self.old.numbers self.old.events.values
            self.old.due self.old.count }
        requires key { key_of event.now ≡ (key.host, key.service) }
        requires absent { number_at (key_of event.now) self.old.numbers ≡ None }
        requires current { ends_key event.now ≡ false }
        ensures stored { OnOk result
            (IsStored self.new.numbers self.new.events.values self.new.due self.new.count) }
        ensures puts { OnOk result (Puts (key_of event.now) (Some event.now)
            self.old.numbers self.old.events.values self.new.numbers self.new.events.values) }
    {
        let due = due_moment(event);
        let stored = Stored::of_packed(PackedEvent::copy_of(alloc, event)?);
        self.add(alloc, key, stored, due)
    }
}

/// Makes the event of this number equal to one whose bytes lie elsewhere.
fn copy_at(
    alloc: Global,
    events: &mut StepTable<Stored<PackedEvent>>,
    number: usize,
    event: &PackedRef<'_>,
) -> Result<(), Memory>
    requires { IsLive events.old.values number }
    ensures { OnOk result (Changes events.old.values events.new.values number (Some event.now)) }
{
    // A write counts no entries.
    let mut uncounted = Steps::fresh(NoLedger);
    let stored = events.visit(number, &mut uncounted);
    stored.become_copy(alloc, event)
}

/// The moment from which on the event is late.
fn due_moment(event: &PackedRef<'_>) -> Option<u64>
    ensures { (now : ℕ) → now ≤ 2 ^ 40 → is_by now result ≡ is_late now event.now }
{
    due_of(event.time(), event.ttl())
}

fn owned_text(alloc: Global, text: Option<&str>) -> Result<Option<Text>, Memory>
    ensures { IfOk result (λ owned. owned ≡ option_copied text.entry) }
{
    match text {
        Some(text) => Ok(Some(Text::from_str(alloc, text)?)),
        None => Ok(None),
    }
}
