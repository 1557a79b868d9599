//! What is known of forks beside the forks themselves.
ghost use Rattle.std.specs.Prelude.{◌≡◌, ℕ, ◌+◌, ◌≤◌, ◌<◌, ◌++◌, [], ◌∷◌, ◌↔◌, length, unwrap_or, None, Some, IsTrue, IsOk, IfOk, IfSome, IfNone, OnOk, OnErr};
ghost use Rattle.std.specs.List.{All, IsDistinct};
ghost use Rattle.std.specs.Map.{keys_of};
ghost use Rattle.list_laws.specs.Prefix.{IsPrefix};
ghost use Rattle.ev_types.specs.Key.{same_key, event_key};
ghost use Rattle.linked_slots.specs.IdLists.{list_at, times, append_to, first_of, last_of};
ghost use Rattle.tick_schedule.specs.Queue.{IsLeast};
ghost use Rattle.fork_by.specs.Labels.{IsLive, number_of, index_at, last_moment_at, dues_set, due_numbers, dues_cleared, due_moments, AreSound, Adds, Touches, Drops, dropped};
ghost use Rattle.fork_by.specs.Register.{latest_of, idle_among, TakesOut};
ghost use Rattle.fork_by.specs.Slots.{slot_at};
ghost use Rattle.indexmap.specs.IndexMap.{get};

use crate::order::{in_order, push_all};
use crate::renew::next_order;
use crate::slots::{
    Change, Slot, clear_slot, index_of, moment_of, reach, set_index, set_moment, set_slot, slot_of,
};
use crate::unmade::{hash_of_fields, hash_of_key, is_key_of};
use ev_types::{Event, Fields, Key};
use http_server::Log;
use indexmap::IndexMap;
use linked_slots::{Hints, Lists};
use list_laws::{Ids, Memory};
use std::alloc::Global;
use std::marker::Model;
use step_count::{Ledger, Steps};
use tick_schedule::DueQueue;

/// The labels of forks, in the order in which these were added.
pub(crate) struct Register {
    // The number of each key.
    numbers: IndexMap<Key, usize>,
    slots: Vec<Option<Slot>>,
    // The numbers in the order of their moments, in one list.
    moments: Lists,
    due: DueQueue,
    // The order of the next fork that is added.
    next: u64,
    // An event's key is looked for here before it is made.
    hints: Hints,
    // A log is a list that only proofs see, and has no bytes.
    changes: Log<Change, ()>,
}

impl Drop for Register {
    fn drop(self) {
        let Register {
            numbers: _numbers,
            slots: _slots,
            moments: _moments,
            due: _due,
            next: _next,
            hints: _hints,
            changes: _changes,
        } = self;
    }
}

impl Model for Register {
    ghost use Rattle.std.specs.Prelude.{List};
    ghost use Rattle.fork_by.specs.Labels.{Label};
    ghost use Rattle.fork_by.specs.Register.{AreKept, labels_of, numbers_after};

    ghost Value = { List Label };

    ghost view = { λ register. labels_of register.numbers.entries register.slots.items register.due
        (numbers_after register.changes.items) };

    ghost invariant = { λ register. AreKept register.numbers.entries register.slots.items
        register.moments.lists register.due register.next (numbers_after register.changes.items) };
}

impl Register {
    /// The labels of no forks.
    pub(crate) fn fresh(alloc: Global) -> Result<Register, Memory>
        ensures { IfOk result (λ register. register ≡ []) }
    {
        let moments = Lists::fresh(alloc, 1)?;
        Ok(Register {
            numbers: IndexMap::new(alloc),
            slots: Vec::new(alloc),
            moments,
            due: DueQueue::fresh(alloc),
            next: 0,
            hints: Hints::fresh(alloc),
            changes: Log::new(),
        })
    }

    /// The number of the key, if it has one.
    pub(crate) fn find(&self, key: &Key) -> Option<usize>
        ensures { result ≡ number_of key.now self.now }
    {
        self.numbers.get(key).copied()
    }

    /// The number of the key that is what the event holds in the fields, if it is at the index that was noted for its
    /// hash.
    pub(crate) fn known(&self, event: &Event, fields: &Fields) -> Option<usize>
        ensures { IfSome result (λ number.
            number_of (event_key event.now fields.now) self.now ≡ Some number) }
    {
        let index = self.hints.number(hash_of_fields(event, fields))?;
        self.known_at(index, event, fields)
    }

    /// The number of the key at the index, if that key is what the event holds in the fields.
    fn known_at(&self, index: usize, event: &Event, fields: &Fields) -> Option<usize>
        ensures { IfSome result (λ number.
            number_of (event_key event.now fields.now) self.now ≡ Some number) }
    {
        let (key, number) = self.numbers.get_index(index)?;
        if is_key_of(key, event, fields) {
            Some(*number)
        } else {
            None
        }
    }

    /// Notes where the key of the number is, for [`Register::known`]. If memory runs out, it is not noted.
    pub(crate) fn note(&mut self, alloc: Global, number: usize)
        ensures { self.new ≡ self.old }
    {
        let index = index_of(&self.slots, number);
        let Some((key, _)) = self.numbers.get_index(index) else {
            return;
        };
        self.hints.reserve(alloc, self.numbers.len());
        self.hints.note(hash_of_key(key), index);
    }

    /// Where the fork of the number is, and 0 where it has none.
    pub(crate) fn index(&self, number: usize) -> usize
        ensures { result ≡ unwrap_or (index_at number self.now) 0 }
    {
        index_of(&self.slots, number)
    }

    /// The moment of the last item of the fork of the number, and 0 where it has none.
    pub(crate) fn moment(&self, number: usize) -> u64
        ensures { result ≡ unwrap_or (last_moment_at number self.now) 0 }
    {
        moment_of(&self.slots, number)
    }

    /// Whether the number has a fork.
    pub(crate) fn is_live(&self, number: usize) -> bool
        ensures { IsTrue result ↔ IsLive number self.now }
    {
        slot_of(&self.slots, number).is_some()
    }

    /// Adds the label of a fork, and gives its number. If `now` is before the moment of another fork, the latest one is
    /// kept, so that the numbers stay in the order of their moments.
    pub(crate) fn add(&mut self, alloc: Global, key: Key, now: u64) -> Result<usize, Memory>
        requires { number_of key self.old ≡ None }
        ensures ok { IfOk result (λ number. Adds self.old self.new key number now) }
        ensures err { OnErr result (self.new ≡ self.old) }
        ensures sound { AreSound self.new }
    {
        let order = next_order(alloc, &mut self.slots, &self.numbers, self.next)?;
        self.next = order;
        let moment = now.max(latest(&self.slots, &self.moments));
        let index = self.numbers.len();
        let number = link(
            alloc,
            &mut self.numbers,
            &mut self.slots,
            &mut self.moments,
            key,
        )?;
        set_slot(
            &mut self.slots,
            number,
            Slot {
                index,
                order,
                moment,
            },
        );
        self.next = order + 1;
        self.changes = self.changes.and(&Change::Added(number), &());
        Ok(number)
    }

    /// Sets the moment of the last item of the fork. If `now` is before the moment of another fork, the latest one is
    /// kept, so that the numbers stay in the order of their moments.
    pub(crate) fn touch(&mut self, number: usize, now: u64)
        requires { IsLive number self.old }
        ensures touched { Touches self.old self.new number now }
        ensures sound { AreSound self.new }
    {
        let moment = now.max(latest(&self.slots, &self.moments));
        set_moment(&mut self.slots, number, moment);
        self.moments.move_back(0, number);
    }

    /// Removes the label of a fork whose moment is at or before `upto`, if there is one, and gives where the fork is.
    /// The last fork is to come there.
    pub(crate) fn take_idle(&mut self, upto: u64) -> Option<usize>
        ensures none { IfNone result (self.new ≡ self.old) }
        ensures later { IfNone result (All (λ label. upto < label.moment) self.old) }
        ensures dropped { IfSome result (λ index. Drops self.old self.new upto index) }
        ensures sound { AreSound self.new }
    {
        let number = first_idle(&self.slots, &self.moments, upto)?;
        Some(self.remove(number))
    }

    /// Removes the label of the number, and gives where its fork is.
    fn remove(&mut self, number: usize) -> usize
        requires { IsLive number self.old }
        ensures index { index_at number self.old ≡ Some result }
        ensures dropped { self.new ≡ dropped number result self.old }
        ensures sound { AreSound self.new }
    {
        let index = index_of(&self.slots, number);
        self.moments.unlink(number);
        self.due.clear(number);
        clear_slot(&mut self.slots, number);
        take_out(&mut self.numbers, &mut self.slots, index);
        self.changes = self.changes.and(&Change::Removed(number), &());
        index
    }

    /// Sets or clears the due moment of the fork. Clearing takes no memory.
    pub(crate) fn set_due(
        &mut self,
        alloc: Global,
        number: usize,
        due: Option<u64>,
    ) -> Result<(), Memory>
        requires { IsLive number self.old }
        ensures ok { OnOk result (self.new ≡ dues_set number due self.old) }
        ensures clears { due ≡ None → IsOk result }
        ensures err { OnErr result (self.new ≡ self.old) }
        ensures sound { AreSound self.new }
    {
        match due {
            Some(due) => self.due.set(alloc, number, due)?,
            None => self.due.clear(number),
        }
        Ok(())
    }

    /// Appends the numbers of the forks that are due at or before the moment `now`, in the order of the labels, and
    /// clears their due moments. It counts one entry for each.
    pub(crate) fn due_forks<G: Ledger>(
        &mut self,
        alloc: Global,
        now: u64,
        out: &mut Ids,
        steps: &mut Steps<G>,
    ) -> Result<(), Memory>
        ensures numbers { OnOk result (out.new ≡ out.old ++ due_numbers now self.old) }
        ensures later { OnOk result (self.new ≡ dues_cleared now self.old) }
        ensures entries { OnOk result (steps.new.entries
            ≡ steps.old.entries + length (due_numbers now self.old)) }

        // Where nothing is due it takes no memory.
        ensures quiet { due_numbers now self.old ≡ [] → IsOk result }
        ensures err { OnErr result (self.new ≡ self.old) }
        ensures sound { AreSound self.new }
        ensures prefix { OnErr result (IsPrefix out.old out.new) }
        ensures at_most { steps.new.entries
            ≤ steps.old.entries + length (due_numbers now self.old) }
        ensures at_least { steps.old.entries ≤ steps.new.entries }
        ensures forks { steps.new.forks ≡ steps.old.forks }
        ensures began { steps.new.began ≡ steps.old.began }
    {
        if !self.due.is_due(now) {
            return Ok(());
        }
        let due = self.due.due_ids(alloc, now)?;
        let numbers = in_order(alloc, &self.slots, &due)?;
        push_all(alloc, &numbers, out, steps)?;
        self.due.clear_all(&due);
        Ok(())
    }

    /// The least due moment of a fork.
    pub(crate) fn next_due(&self) -> Option<u64>
        ensures { IsLeast (due_moments self.now) result }
    {
        self.due.next_due()
    }
}

/// The latest moment of a fork, and 0 where there are none.
fn latest(slots: &Vec<Option<Slot>>, moments: &Lists) -> u64
    requires { 0 < length moments.now.lists }
    ensures { result ≡ latest_of slots.now.items (last_of (list_at moments.now.lists 0)) }
{
    match moments.back(0) {
        Some(number) => moment_of(slots, number),
        None => 0,
    }
}

/// The number of the fork whose moment is the least, if that is at or before `upto`.
fn first_idle(slots: &Vec<Option<Slot>>, moments: &Lists, upto: u64) -> Option<usize>
    requires { 0 < length moments.now.lists }
    ensures { result ≡ idle_among upto slots.now.items (first_of (list_at moments.now.lists 0)) }
{
    let number = moments.front(0)?;
    if moment_of(slots, number) <= upto {
        Some(number)
    } else {
        None
    }
}

/// Gives the key a number that has no fork, and makes a slot for it.
fn link(
    alloc: Global,
    numbers: &mut IndexMap<Key, usize>,
    slots: &mut Vec<Option<Slot>>,
    moments: &mut Lists,
    key: Key,
) -> Result<usize, Memory>
    requires list { 0 < length moments.old.lists }
    requires key { get same_key numbers.old key ≡ None }
    ensures vacant { IfOk result (λ number. times number moments.old.lists ≡ 0) }
    ensures lists { IfOk result (λ number.
        moments.new.lists ≡ append_to 0 number moments.old.lists) }
    ensures entries { IfOk result (λ number.
        numbers.new.entries ≡ numbers.old.entries ++ (key, number) ∷ []) }
    ensures keys { IsDistinct same_key (keys_of numbers.new.entries) }
    ensures slot { IfOk result (λ number. number < length slots.new.items) }
    ensures slots { (other : ℕ) → slot_at other slots.new.items ≡ slot_at other slots.old.items }
    ensures err { OnErr result (moments.new.lists ≡ moments.old.lists) }
    ensures same { OnErr result (numbers.new.entries ≡ numbers.old.entries) }
{
    numbers.reserve(1)?;
    let number = take_number(alloc, slots, moments)?;
    numbers.insert(key, number)?;
    Ok(number)
}

/// Puts a number that has no fork at the end of the list, and makes a slot for it.
fn take_number(
    alloc: Global,
    slots: &mut Vec<Option<Slot>>,
    moments: &mut Lists,
) -> Result<usize, Memory>
    requires { 0 < length moments.old.lists }
    ensures vacant { IfOk result (λ number. times number moments.old.lists ≡ 0) }
    ensures lists { IfOk result (λ number.
        moments.new.lists ≡ append_to 0 number moments.old.lists) }
    ensures slot { IfOk result (λ number. number < length slots.new.items) }
    ensures slots { (other : ℕ) → slot_at other slots.new.items ≡ slot_at other slots.old.items }
    ensures err { OnErr result (moments.new.lists ≡ moments.old.lists) }
{
    moments.reserve(alloc, 1)?;
    let number = moments.insert(0);
    if reach(slots, number).is_err() {
        moments.unlink(number);
        return Err(Memory);
    }
    Ok(number)
}

/// Removes the key at the index. The last key comes there, and the number of that one gets the index.
fn take_out(numbers: &mut IndexMap<Key, usize>, slots: &mut Vec<Option<Slot>>, index: usize)
    requires { index < length numbers.old.entries }
    ensures { TakesOut numbers.old.entries numbers.new.entries slots.old.items slots.new.items
        index }
{
    numbers.swap_remove_index(index);
    if let Some((_, number)) = numbers.get_index(index) {
        set_index(slots, *number, index);
    }
}
