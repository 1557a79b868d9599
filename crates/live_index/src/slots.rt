ghost use Rattle.std.specs.Prelude.{◌≡◌, ℕ, ◌+◌, ◌-◌, ◌^◌, ◌≤◌, eqb, false, List, [], ◌∷◌, ◌++◌, Option, filter, length, take, not, option_copied, IfSome, IfOk, IsNone, IsSome, OnErr, OnOk, true, Some, None, if◌then◌else◌};
ghost use Rattle.list_laws.specs.Prefix.{IsPrefix};
ghost use Rattle.ev_types.specs.Expiry.{is_expired, is_late, ends_key};
ghost use Rattle.ev_types.specs.declared.event.Event.{Event as StoredEvent};
ghost use Rattle.key_map.specs.Keys.{number_at, Numbers};
ghost use Rattle.linked_slots.specs.Table.{value_at, Changes, IsLive};
ghost use Rattle.tick_schedule.specs.Queue.{IsRising, Sets};
ghost use Rattle.pred_eval.specs.Truth.{holds};
ghost use Rattle.live_index.specs.Index.{events_lent, reply_len, visited};
ghost use Rattle.stored_event.specs.Key.{key_lent};
ghost use Rattle.live_index.specs.Slots.{key_of, events_in, events_at, event_of, slot_of, is_by, is_past, AreLive, IsLinked, IsStored, IsTaking, Puts};

mod packed;

use crate::keyed::KeyedEvent;
use crate::ordered::OrderedKeys;
use ev_types::{DEFAULT_TTL, Event, Events, LATEST_MOMENT, Memory, Text};
use linked_slots::{Hints, StepTable};
use list_laws::Ids;
use pred_eval::Pred;
use std::alloc::Global;
use std::collections::BTreeSet;
use std::mem;
use step_count::{Ledger, NoLedger, Steps};
use stored_event::{EMPTY_REPLY, EventForm, KeyRef, MeasuredEvent, Stored};
use tick_schedule::DueQueue;

/// The events of an index, by host and by service, absent before present.
pub(crate) struct Slots<P: EventForm> {
    // The key of an event has its number. The queue has the moments at which events expire, by number.
    numbers: OrderedKeys,
    events: StepTable<Stored<P>>,
    due: DueQueue,
    count: usize,
    // A write looks here for the number of its key first.
    hints: Hints,
}

impl<P: EventForm> Drop for Slots<P> {
    fn drop(self) {
        let Slots {
            numbers: _numbers,
            events: _events,
            due: _due,
            count: _count,
            hints: _hints,
        } = self;
    }
}

/// A host and a service that have no event yet, and their hash.
#[derive(Drop)]
struct NewKey {
    hash: u64,
    host: Option<Text>,
    service: Option<Text>,
}

impl<P: EventForm> Slots<P> {
    pub(crate) fn fresh(alloc: Global) -> Slots<P>
        ensures stored { IsStored result.numbers result.events.values result.due result.count }
        ensures events { events_in result.numbers result.events.values ≡ [] }
    {
        Slots {
            numbers: OrderedKeys::fresh(alloc),
            events: StepTable::fresh(alloc),
            due: DueQueue::fresh(alloc),
            count: 0,
            hints: Hints::fresh(alloc),
        }
    }

    /// Moves the event into the slots, in place of the one of its host and service. An event whose state is "expired"
    /// is not moved, and only ends that one.
    pub(crate) fn write(&mut self, alloc: Global, event: &mut Event) -> Result<(), Memory>
        requires { IsStored self.old.numbers self.old.events.values self.old.due self.old.count }
        ensures stored { OnOk result
            (IsStored self.new.numbers self.new.events.values self.new.due self.new.count) }
        ensures puts { OnOk result (Puts (key_of event.old) (slot_of event.old)
            self.old.numbers self.old.events.values self.new.numbers self.new.events.values) }
    {
        if event.ends_key() {
            self.end(event.host.as_ref(), event.service.as_ref());
            return Ok(());
        }
        self.enter(alloc, event)?;
        Ok(())
    }

    /// Moves the event, which does not end its key, into the slots, in place of the one of its host and service.
    fn enter(&mut self, alloc: Global, event: &mut Event) -> Result<(), Memory>
        requires stored { IsStored self.old.numbers self.old.events.values
            self.old.due self.old.count }
        requires current { ends_key event.old ≡ false }
        ensures stored { OnOk result
            (IsStored self.new.numbers self.new.events.values self.new.due self.new.count) }
        ensures puts { OnOk result (Puts (key_of event.old) (Some event.old)
            self.old.numbers self.old.events.values self.new.numbers self.new.events.values) }
    {
        let key = KeyRef::of(event);
        let hash = key.hash();
        match self.hinted(hash, key) {
            Some(number) => self.replace(alloc, number, event),
            None => self.enter_unhinted(alloc, hash, event),
        }
    }

    /// The same, where no hint gives the number of the event's host and service, which have this hash.
    fn enter_unhinted(&mut self, alloc: Global, hash: u64, event: &mut Event) -> Result<(), Memory>
        requires stored { IsStored self.old.numbers self.old.events.values
            self.old.due self.old.count }
        requires current { ends_key event.old ≡ false }
        ensures stored { OnOk result
            (IsStored self.new.numbers self.new.events.values self.new.due self.new.count) }
        ensures puts { OnOk result (Puts (key_of event.old) (Some event.old)
            self.old.numbers self.old.events.values self.new.numbers self.new.events.values) }
    {
        match self
            .numbers
            .get(event.host.as_ref(), event.service.as_ref())
        {
            Some(number) => {
                self.hints.note(hash, number);
                self.replace(alloc, number, event)
            }
            None => self.put(alloc, hash, event),
        }
    }

    /// The number of the key, if it was noted for the hash.
    #[inline(always)]
    fn hinted(&self, hash: u64, key: KeyRef<'_>) -> Option<usize>
        requires { IsLinked self.now.numbers self.now.events.values }
        ensures { IfSome result (λ number.
            number_at (key_lent key.entry) self.now.numbers ≡ Some number) }
    {
        let number = self.hints.number(hash)?;
        self.checked_hint(number, key)
    }

    /// The number, if an event of this key has it.
    #[inline(always)]
    fn checked_hint(&self, number: usize, key: KeyRef<'_>) -> Option<usize>
        requires { IsLinked self.now.numbers self.now.events.values }
        ensures { IfSome result (λ number.
            number_at (key_lent key.entry) self.now.numbers ≡ Some number) }
    {
        if !self.events.contains(number) {
            return None;
        }
        // A write counts no entries.
        let mut uncounted = Steps::fresh(NoLedger);
        let known = self.events.read(number, &mut uncounted);
        if known.key().is(key) {
            Some(number)
        } else {
            None
        }
    }

    /// Moves an event in place of the one of this number, which is of the same host and service. Where that owns its
    /// parts, and both expire at the same moment, it takes no memory.
    fn replace(&mut self, alloc: Global, number: usize, event: &mut Event) -> Result<(), Memory>
        requires stored { IsStored self.old.numbers self.old.events.values
            self.old.due self.old.count }
        requires known { number_at (key_of event.old) self.old.numbers ≡ Some number }
        requires current { ends_key event.old ≡ false }
        ensures stored { OnOk result
            (IsStored self.new.numbers self.new.events.values self.new.due self.new.count) }
        ensures puts { OnOk result (Puts (key_of event.old) (Some event.old)
            self.old.numbers self.old.events.values self.new.numbers self.new.events.values) }
    {
        let due = due_moment(event);
        write_at(alloc, &mut self.events, number, event)?;
        set_due(alloc, &mut self.due, number, due)?;
        Ok(())
    }

    /// Removes the event of this host and this service, if there is one.
    fn end(&mut self, host: Option<&Text>, service: Option<&Text>)
        requires { IsStored self.old.numbers self.old.events.values self.old.due self.old.count }
        ensures stored { IsStored self.new.numbers self.new.events.values
            self.new.due self.new.count }
        ensures absent { number_at (option_copied host.entry, option_copied service.entry)
            self.new.numbers ≡ None }
        ensures puts { Puts (option_copied host.entry, option_copied service.entry) None
            self.old.numbers self.old.events.values self.new.numbers self.new.events.values }
    {
        let Some(number) = self.numbers.remove(host, service) else {
            return;
        };
        self.events.remove(number);
        self.due.clear(number);
        self.count -= 1;
    }

    /// Adds the event, whose host and service have this hash and no event yet. It is moved out of `event`.
    fn put(&mut self, alloc: Global, hash: u64, event: &mut Event) -> Result<(), Memory>
        requires stored { IsStored self.old.numbers self.old.events.values
            self.old.due self.old.count }
        requires absent { number_at (key_of event.old) self.old.numbers ≡ None }
        requires current { ends_key event.old ≡ false }
        ensures stored { OnOk result
            (IsStored self.new.numbers self.new.events.values self.new.due self.new.count) }
        ensures puts { OnOk result (Puts (key_of event.old) (Some event.old)
            self.old.numbers self.old.events.values self.new.numbers self.new.events.values) }
    {
        let host = copy_text(alloc, event.host.as_ref())?;
        let service = copy_text(alloc, event.service.as_ref())?;
        let key = NewKey {
            hash,
            host,
            service,
        };
        let due = due_moment(event);
        let moved = mem::replace(event, Event::at(alloc, 0));
        let stored = Stored::of_event(alloc, moved)?;
        self.add(alloc, key, stored, due)
    }

    /// Adds the event of this key, which has none yet. It is late from the moment `due` on.
    fn add(
        &mut self,
        alloc: Global,
        key: NewKey,
        event: Stored<P>,
        due: Option<u64>,
    ) -> Result<(), Memory>
        requires stored { IsStored self.old.numbers self.old.events.values
            self.old.due self.old.count }
        requires key { key_of event ≡ (key.host, key.service) }
        requires absent { number_at (key_of event) self.old.numbers ≡ None }
        requires current { ends_key event ≡ false }
        requires timed { (now : ℕ) → now ≤ 2 ^ 40 → is_by now due ≡ is_late now event }
        ensures stored { OnOk result
            (IsStored self.new.numbers self.new.events.values self.new.due self.new.count) }
        ensures puts { OnOk result (Puts (key_of event) (Some event)
            self.old.numbers self.old.events.values self.new.numbers self.new.events.values) }
    {
        let Some(count) = self.count.checked_add(1) else {
            return Err(Memory);
        };
        let number = self.events.add(alloc, event)?;
        self.numbers.insert(alloc, key.host, key.service, number)?;
        self.count = count;
        self.hints.reserve(alloc, count);
        self.hints.note(key.hash, number);
        set_due(alloc, &mut self.due, number, due)?;
        Ok(())
    }

    /// How many events there are.
    pub(crate) fn len(&self) -> usize
        requires { IsStored self.now.numbers self.now.events.values self.now.due self.now.count }
        ensures { result ≡ length (events_in self.now.numbers self.now.events.values) }
    {
        self.count
    }

    /// Removes the events that are expired at the moment `now`, at most 2^40, and appends them to `out` in order. It
    /// counts an entry for each.
    pub(crate) fn take_expired<G: Ledger>(
        &mut self,
        alloc: Global,
        now: u64,
        out: &mut Events,
        steps: &mut Steps<G>,
    ) -> Result<(), Memory>
        requires stored { IsStored self.old.numbers self.old.events.values
            self.old.due self.old.count }
        requires now { now ≤ 2 ^ 40 }
        ensures stored { OnOk result
            (IsStored self.new.numbers self.new.events.values self.new.due self.new.count) }
        ensures kept { OnOk result (events_in self.new.numbers self.new.events.values
            ≡ filter (λ event. not (is_expired now event))
            (events_in self.old.numbers self.old.events.values)) }
        ensures gone { OnOk result (out.new ≡ out.old
            ++ filter (is_expired now) (events_in self.old.numbers self.old.events.values)) }
        ensures prefix { OnErr result (IsPrefix out.old out.new) }
        ensures forks { steps.new.forks ≡ steps.old.forks }
        ensures entries { steps.new.entries ≤ steps.old.entries
            + length (filter (is_expired now) (events_in self.old.numbers self.old.events.values)) }
        ensures at_least { steps.old.entries ≤ steps.new.entries }
        ensures began { steps.new.began ≡ steps.old.began }
    {
        let mut numbers = Ids::fresh(alloc);
        self.due.take_due(alloc, now, &mut numbers, steps)?;
        let expired = self.take_all(alloc, numbers.as_slice())?;
        push_all(alloc, expired, out)?;
        Ok(())
    }

    /// Appends copies of the events that meet the predicate, in order. It counts what [`Slots::find`] counts.
    pub(crate) fn copy_matching<G: Ledger>(
        &self,
        alloc: Global,
        pred: &mut Pred,
        out: &mut Events,
        steps: &mut Steps<G>,
    ) -> Result<(), Memory>
        requires { IsStored self.now.numbers self.now.events.values self.now.due self.now.count }
        ensures same { pred.new ≡ pred.old }
        ensures ok { OnOk result (out.new ≡ out.old
            ++ filter (holds pred.old) (events_in self.now.numbers self.now.events.values)) }
        ensures prefix { OnErr result (IsPrefix out.old out.new) }
        ensures forks { steps.new.forks ≡ steps.old.forks }
        ensures counted { OnOk result (steps.new.entries ≡ steps.old.entries
            + length (visited pred.old (events_in self.now.numbers self.now.events.values))) }
        ensures entries { steps.new.entries ≤ steps.old.entries
            + length (visited pred.old (events_in self.now.numbers self.now.events.values)) }
        ensures at_least { steps.old.entries ≤ steps.new.entries }
        ensures began { steps.new.began ≡ steps.old.began }
    {
        let mut found = Vec::new(alloc);
        self.find(alloc, pred, &mut found, steps)?;
        copy_all(alloc, found.as_slice(), out)
    }

    /// Appends the events that meet the predicate, where they lie, in order. It counts an entry for each event of the
    /// host that the predicate asks for, or for each event where it asks for none.
    pub(crate) fn find<'a, G: Ledger>(
        &'a self,
        alloc: Global,
        pred: &mut Pred,
        found: &mut Vec<&'a Stored<P>>,
        steps: &mut Steps<G>,
    ) -> Result<(), Memory>
        requires { IsStored self.now.numbers self.now.events.values self.now.due self.now.count }
        ensures same { pred.new ≡ pred.old }
        ensures ok { OnOk result (events_lent found.new.items ≡ events_lent found.old.items
            ++ filter (holds pred.old) (events_in self.now.numbers self.now.events.values)) }
        ensures prefix { OnErr result (IsPrefix (events_lent found.old.items)
            (events_lent found.new.items)) }
        ensures forks { steps.new.forks ≡ steps.old.forks }
        ensures counted { OnOk result (steps.new.entries ≡ steps.old.entries
            + length (visited pred.old (events_in self.now.numbers self.now.events.values))) }
        ensures entries { steps.new.entries ≤ steps.old.entries
            + length (visited pred.old (events_in self.now.numbers self.now.events.values)) }
        ensures at_least { steps.old.entries ≤ steps.new.entries }
        ensures began { steps.new.began ≡ steps.old.began }
    {
        let numbers = self.numbers.numbers_for(alloc, pred)?;
        let count = numbers.len();
        find_at(
            alloc,
            &self.events,
            numbers.as_slice(),
            pred,
            count,
            found,
            steps,
        )
    }

    /// Appends the first `limit` events that meet the predicate, where they lie, in order. It counts no more entries
    /// than [`Slots::find`].
    pub(crate) fn find_first<'a, G: Ledger>(
        &'a self,
        alloc: Global,
        pred: &mut Pred,
        limit: usize,
        found: &mut Vec<&'a Stored<P>>,
        steps: &mut Steps<G>,
    ) -> Result<(), Memory>
        requires { IsStored self.now.numbers self.now.events.values self.now.due self.now.count }
        ensures same { pred.new ≡ pred.old }
        ensures ok { OnOk result (events_lent found.new.items ≡ events_lent found.old.items
            ++ take limit
            (filter (holds pred.old) (events_in self.now.numbers self.now.events.values))) }
        ensures prefix { OnErr result (IsPrefix (events_lent found.old.items)
            (events_lent found.new.items)) }
        ensures forks { steps.new.forks ≡ steps.old.forks }
        ensures entries { steps.new.entries ≤ steps.old.entries
            + length (visited pred.old (events_in self.now.numbers self.now.events.values)) }
        ensures at_least { steps.old.entries ≤ steps.new.entries }
        ensures began { steps.new.began ≡ steps.old.began }
    {
        let numbers = self.numbers.numbers_for(alloc, pred)?;
        find_at(
            alloc,
            &self.events,
            numbers.as_slice(),
            pred,
            limit,
            found,
            steps,
        )
    }

    /// Lists the keys in order, where a search for the predicate has to look at all of them.
    pub(crate) fn prepare(&mut self, alloc: Global, pred: &Pred) -> Result<(), Memory>
        ensures numbers { self.new.numbers ≡ self.old.numbers }
        ensures events { self.new.events ≡ self.old.events }
        ensures due { self.new.due ≡ self.old.due }
        ensures count { self.new.count ≡ self.old.count }
    {
        self.numbers.list_for(alloc, pred)
    }

    /// How many bytes a reply has with the events that meet the predicate. It counts what [`Slots::find`] counts.
    pub(crate) fn found_len<G: Ledger>(
        &mut self,
        alloc: Global,
        pred: &mut Pred,
        steps: &mut Steps<G>,
    ) -> Result<usize, Memory>
        requires { IsStored self.old.numbers self.old.events.values self.old.due self.old.count }
        ensures numbers { self.new.numbers ≡ self.old.numbers }
        ensures events { self.new.events.values ≡ self.old.events.values }
        ensures due { self.new.due ≡ self.old.due }
        ensures count { self.new.count ≡ self.old.count }
        ensures same { pred.new ≡ pred.old }
        ensures ok { IfOk result (λ len. len ≡ reply_len
            (filter (holds pred.old) (events_in self.old.numbers self.old.events.values))) }
        ensures forks { steps.new.forks ≡ steps.old.forks }
        ensures counted { OnOk result (steps.new.entries ≡ steps.old.entries
            + length (visited pred.old (events_in self.old.numbers self.old.events.values))) }
        ensures entries { steps.new.entries ≤ steps.old.entries
            + length (visited pred.old (events_in self.old.numbers self.old.events.values)) }
        ensures at_least { steps.old.entries ≤ steps.new.entries }
        ensures began { steps.new.began ≡ steps.old.began }
    {
        self.numbers.list_for(alloc, pred)?;
        let numbers = self.numbers.numbers_for(alloc, pred)?;
        found_len_at(alloc, &mut self.events, numbers.as_slice(), pred, steps)
    }

    /// Takes the events with these numbers out, in the order of the index.
    fn take_all(&mut self, alloc: Global, numbers: &[usize]) -> Result<BTreeSet<KeyedEvent>, Memory>
        requires linked { IsLinked self.old.numbers self.old.events.values }
        requires counted { self.old.count ≡ length self.old.numbers }
        ensures linked { OnOk result (IsLinked self.new.numbers self.new.events.values) }
        ensures counted { OnOk result (self.new.count ≡ length self.new.numbers) }
        ensures due { self.new.due ≡ self.old.due }
        ensures taken { IfOk result (λ events. IsTaking numbers.now
            self.old.numbers self.old.events.values self.new.numbers self.new.events.values events.keys) }
    {
        let mut events = BTreeSet::new(alloc);
        for number in numbers {
            self.take_into(alloc, *number, &mut events)?;
        }
        Ok(events)
    }

    /// Takes the event with this number out, and puts it among the events.
    fn take_into(
        &mut self,
        alloc: Global,
        number: usize,
        events: &mut BTreeSet<KeyedEvent>,
    ) -> Result<(), Memory>
        requires linked { IsLinked self.old.numbers self.old.events.values }
        requires counted { self.old.count ≡ length self.old.numbers }
        ensures linked { OnOk result (IsLinked self.new.numbers self.new.events.values) }
        ensures counted { OnOk result (self.new.count ≡ length self.new.numbers) }
        ensures due { self.new.due ≡ self.old.due }
        ensures step { OnOk result ((gone : List ℕ) (numbers : Numbers)
            (table : List (Option StoredEvent)) →
            IsTaking gone numbers table self.old.numbers self.old.events.values events.old.keys →
            IsTaking (gone ++ number ∷ []) numbers table self.new.numbers self.new.events.values
            events.new.keys) }
    {
        let Some(event) = self.take(alloc, number)? else {
            return Ok(());
        };
        events.replace(KeyedEvent { event })?;
        Ok(())
    }

    /// Takes the event with this number out. It then owns its parts, which takes memory only if it was packed.
    fn take(&mut self, alloc: Global, number: usize) -> Result<Option<Event>, Memory>
        requires linked { IsLinked self.old.numbers self.old.events.values }
        requires counted { self.old.count ≡ length self.old.numbers }
        ensures linked { OnOk result (IsLinked self.new.numbers self.new.events.values) }
        ensures counted { OnOk result (self.new.count ≡ length self.new.numbers) }
        ensures due { self.new.due ≡ self.old.due }
        ensures taken { IfOk result (λ event. event ≡ value_at self.old.events.values number) }
        ensures slots { OnOk result ((other : ℕ) → value_at self.new.events.values other
            ≡ (if eqb other number then None else value_at self.old.events.values other)) }
        ensures puts { IfOk result (λ event. IfSome event (λ event. Puts (key_of event) None
            self.old.numbers self.old.events.values self.new.numbers self.new.events.values)) }
        ensures same { IfOk result (λ event. event ≡ None
            → (self.new.numbers ≡ self.old.numbers)
            × (self.new.events.values ≡ self.old.events.values)) }
    {
        if !self.events.contains(number) {
            return Ok(None);
        }
        let stored = self.events.remove(number);
        let event = stored.into_event(alloc)?;
        self.numbers
            .remove(event.host.as_ref(), event.service.as_ref());
        self.count -= 1;
        Ok(Some(event))
    }
}

impl Slots<MeasuredEvent> {
    /// The event of this host and this service. It counts an entry where there is one, and takes no memory.
    pub(crate) fn get<G: Ledger>(
        &self,
        host: Option<&Text>,
        service: Option<&Text>,
        steps: &mut Steps<G>,
    ) -> Option<&Event>
        requires { IsStored self.now.numbers self.now.events.values self.now.due self.now.count }
        ensures event { option_copied result ≡ event_of
            (option_copied host.entry, option_copied service.entry)
            self.now.numbers self.now.events.values }
        ensures forks { steps.new.forks ≡ steps.old.forks }
        ensures found { IsSome result → steps.new.entries ≡ steps.old.entries + 1 }
        ensures absent { IsNone result → steps.new.entries ≡ steps.old.entries }
        ensures entries { steps.new.entries ≤ steps.old.entries + 1 }
        ensures began { steps.new.began ≡ steps.old.began }
    {
        let number = self.numbers.get(host, service)?;
        Some(self.events.read(number, steps).event())
    }
}

/// Appends the first `limit` events with these numbers that meet the predicate, where they lie. It counts an entry for
/// each number up to that of the last of them.
fn find_at<'a, P: EventForm, G: Ledger>(
    alloc: Global,
    events: &'a StepTable<Stored<P>>,
    numbers: &[usize],
    pred: &mut Pred,
    limit: usize,
    found: &mut Vec<&'a Stored<P>>,
    steps: &mut Steps<G>,
) -> Result<(), Memory>
    requires { AreLive events.now.values numbers.now }
    ensures same { pred.new ≡ pred.old }
    ensures ok { OnOk result (events_lent found.new.items ≡ events_lent found.old.items
        ++ take limit (filter (holds pred.old) (events_at events.now.values numbers.now))) }
    ensures prefix { OnErr result (IsPrefix (events_lent found.old.items)
        (events_lent found.new.items)) }
    ensures forks { steps.new.forks ≡ steps.old.forks }
    ensures counted { OnOk result (length numbers.now ≤ limit →
        steps.new.entries ≡ steps.old.entries + length numbers.now) }
    ensures entries { steps.new.entries ≤ steps.old.entries + length numbers.now }
    ensures at_least { steps.old.entries ≤ steps.new.entries }
    ensures began { steps.new.began ≡ steps.old.began }
{
    let before = found.len();
    for number in numbers {
        if found.len() - before == limit {
            return Ok(());
        }
        let event = events.read(*number, steps);
        find_one(alloc, event, pred, found)?;
    }
    Ok(())
}

/// Appends the event, where it meets the predicate.
fn find_one<'a, P: EventForm>(
    alloc: Global,
    event: &'a Stored<P>,
    pred: &mut Pred,
    found: &mut Vec<&'a Stored<P>>,
) -> Result<(), Memory>
    ensures same { pred.new ≡ pred.old }
    ensures ok { OnOk result (events_lent found.new.items ≡ events_lent found.old.items
        ++ filter (holds pred.old) (event.now ∷ [])) }
    ensures err { OnErr result (events_lent found.new.items ≡ events_lent found.old.items) }
{
    if pred.holds_of(alloc, event)? {
        found.push(event)?;
    }
    Ok(())
}

/// How many bytes a reply has with those events with these numbers that meet the predicate. It counts an entry for each
/// number.
fn found_len_at<P: EventForm, G: Ledger>(
    alloc: Global,
    events: &mut StepTable<Stored<P>>,
    numbers: &[usize],
    pred: &mut Pred,
    steps: &mut Steps<G>,
) -> Result<usize, Memory>
    requires { AreLive events.old.values numbers.now }
    ensures same { pred.new ≡ pred.old }
    ensures events { events.new.values ≡ events.old.values }
    ensures ok { IfOk result (λ len. len ≡ reply_len
        (filter (holds pred.old) (events_at events.old.values numbers.now))) }
    ensures forks { steps.new.forks ≡ steps.old.forks }
    ensures counted { OnOk result (steps.new.entries ≡ steps.old.entries + length numbers.now) }
    ensures entries { steps.new.entries ≤ steps.old.entries + length numbers.now }
    ensures at_least { steps.old.entries ≤ steps.new.entries }
    ensures began { steps.new.began ≡ steps.old.began }
{
    let mut len = EMPTY_REPLY;
    for number in numbers {
        let added = added_len(alloc, events, *number, pred, steps)?;
        len = sum(len, added)?;
    }
    Ok(len)
}

/// How many bytes the event with this number adds to a reply, if it meets the predicate, and else 0.
fn added_len<P: EventForm, G: Ledger>(
    alloc: Global,
    events: &mut StepTable<Stored<P>>,
    number: usize,
    pred: &mut Pred,
    steps: &mut Steps<G>,
) -> Result<usize, Memory>
    requires { IsLive events.old.values number }
    ensures same { pred.new ≡ pred.old }
    ensures events { events.new.values ≡ events.old.values }
    ensures ok { IfOk result (λ len. 2 + len ≡ reply_len
        (filter (holds pred.old) (events_at events.old.values (number ∷ [])))) }
    ensures forks { steps.new.forks ≡ steps.old.forks }
    ensures entries { steps.new.entries ≡ steps.old.entries + 1 }
    ensures began { steps.new.began ≡ steps.old.began }
{
    len_found(alloc, events.visit(number, steps), pred)
}

/// How many bytes the event adds to a reply, if it meets the predicate, and else 0.
fn len_found<P: EventForm>(
    alloc: Global,
    event: &mut Stored<P>,
    pred: &mut Pred,
) -> Result<usize, Memory>
    ensures same { pred.new ≡ pred.old }
    ensures event { event.new ≡ event.old }
    ensures ok { IfOk result (λ len. 2 + len ≡ reply_len
        (filter (holds pred.old) (event.old ∷ []))) }
{
    if !pred.holds_of(alloc, event)? {
        return Ok(0);
    }
    event.len()
}

fn sum(a: usize, b: usize) -> Result<usize, Memory>
    ensures { IfOk result (λ n. n ≡ a + b) }
{
    a.checked_add(b).ok_or(Memory)
}

/// Moves the event in place of the one of this number.
fn write_at<P: EventForm>(
    alloc: Global,
    events: &mut StepTable<Stored<P>>,
    number: usize,
    event: &mut Event,
) -> Result<(), Memory>
    requires { IsLive events.old.values number }
    ensures { OnOk result (Changes events.old.values events.new.values number (Some event.old)) }
{
    // A write counts no entries.
    let mut uncounted = Steps::fresh(NoLedger);
    events.visit(number, &mut uncounted).take_from(alloc, event)
}

/// Appends copies of the events, in order.
fn copy_all<P: EventForm>(
    alloc: Global,
    events: &[&Stored<P>],
    out: &mut Events,
) -> Result<(), Memory>
    ensures ok { OnOk result (out.new ≡ out.old ++ events_lent events.now) }
    ensures prefix { OnErr result (IsPrefix out.old out.new) }
{
    for event in events {
        out.push(alloc, event.copy(alloc)?)?;
    }
    Ok(())
}

/// Appends the events, in order.
fn push_all(alloc: Global, events: BTreeSet<KeyedEvent>, out: &mut Events) -> Result<(), Memory>
    ensures ok { OnOk result (out.new ≡ out.old ++ events.keys) }
    ensures prefix { OnErr result (IsPrefix out.old out.new) }
{
    for keyed in events {
        out.push(alloc, keyed.event)?;
    }
    Ok(())
}

/// Sets the moment of the number, or clears it where there is none.
fn set_due(
    alloc: Global,
    queue: &mut DueQueue,
    number: usize,
    due: Option<u64>,
) -> Result<(), Memory>
    ensures ok { OnOk result (Sets queue.old queue.new number due) }
    ensures rising { IsRising queue.new }
{
    match due {
        Some(due) => queue.set(alloc, number, due),
        None => {
            queue.clear(number);
            Ok(())
        }
    }
}

/// The moment from which on the event is late.
fn due_moment(event: &Event) -> Option<u64>
    ensures { (now : ℕ) → now ≤ 2 ^ 40 → is_by now result ≡ is_late now event.now }
{
    due_of(event.time, event.ttl)
}

/// The moment from which on an event with this time and this ttl is late. One after the last moment of the clock is
/// left out, so that the event stays until another one takes its place, and one before 1970 is 0.
fn due_of(time: i64, ttl: Option<u32>) -> Option<u64>
    ensures { (now : ℕ) → now ≤ 2 ^ 40 → is_by now result ≡ is_past now time ttl }
{
    let ttl = ttl.unwrap_or(DEFAULT_TTL);
    let due = i128::from(time) + i128::from(ttl) + 1;
    if due > i128::from(LATEST_MOMENT) {
        return None;
    }
    if due < 0 {
        return Some(0);
    }
    Some(due as u64)
}

fn copy_text(alloc: Global, text: Option<&Text>) -> Result<Option<Text>, Memory>
    ensures { IfOk result (λ copied. copied ≡ option_copied text.entry) }
{
    match text {
        Some(text) => Ok(Some(text.copy(alloc)?)),
        None => Ok(None),
    }
}
