ghost use Rattle.std.specs.Prelude.{◌≡◌, ◌+◌, ◌<◌, ◌≤◌, [], ◌↔◌, IsTrue, IsOk, Some, None, IfOk, OnErr, OnOk};
ghost use Rattle.std.specs.Borrow.{sem};
ghost use Rattle.linked_slots.specs.Table.{value_at, count_of, IsLive, Changes};

use list_laws::Memory;
use slab::Slab;
use std::alloc::Global;
use std::marker::Model;
use step_count::{Ledger, Steps};

/// Values under numbers that the table picks. The number of a removed value is used again: numbers are below the count
/// of the values that fit, and more fit only once that many are there.
pub struct StepTable<T> {
    values: Slab<T>,
}

impl<T: Drop> Drop for StepTable<T> {
    fn drop(self) {
        let StepTable { values: _values } = self;
    }
}

impl<T> Model for StepTable<T> {
    ghost use Rattle.linked_slots.specs.Table.{Table};

    ghost Value = { Table T };

    ghost view = { λ table. record {
      values = table.values.slots;
      room = table.values.capacity;
    } };
}

impl<T: Drop> StepTable<T> {
    ghost use Rattle.linked_slots.specs.Lending.{LendsValue};

    /// The table of no values. It takes no memory.
    pub fn fresh(alloc: Global) -> StepTable<T>
        ensures values { result.values ≡ [] }
        ensures room { result.room ≡ 0 }
    {
        StepTable {
            values: Slab::new(alloc),
        }
    }

    /// Adds the value under a number that has none. It takes memory only where as many values are there as fit, so
    /// after a removal it takes none.
    pub fn add(&mut self, _alloc: Global, value: T) -> Result<usize, Memory>
        ensures vacant { IfOk result (λ number. value_at self.old.values number ≡ None) }
        ensures added { IfOk result (λ number.
            Changes self.old.values self.new.values number (Some value)) }
        ensures count { OnOk result (count_of self.new ≡ count_of self.old + 1) }
        ensures err { OnErr result (self.new.values ≡ self.old.values) }

        // A number is below the room, and the room grows only where it is full.
        ensures number { IfOk result (λ number. number < self.new.room) }
        ensures fits { count_of self.old < self.old.room → IsOk result }
        ensures same_room { count_of self.old < self.old.room → self.new.room ≡ self.old.room }
        ensures room { self.old.room ≤ self.new.room }
    {
        Ok(self.values.insert(value)?)
    }

    /// Whether the number has a value.
    pub fn contains(&self, number: usize) -> bool
        ensures { IsTrue result ↔ IsLive self.now.values number }
    {
        self.values.contains(number)
    }

    /// The value at the number, for reading. It counts one entry.
    pub fn read<G: Ledger>(&self, number: usize, steps: &mut Steps<G>) -> &T
        requires { IsLive self.now.values number }
        ensures value { value_at self.now.values number ≡ Some result.now }
        ensures forks { steps.new.forks ≡ steps.old.forks }
        ensures entries { steps.new.entries ≡ steps.old.entries + 1 }
        ensures began { steps.new.began ≡ steps.old.began }
    {
        steps.visit_entry();
        &self.values[number]
    }

    /// The value at the number, for writing. It counts one entry.
    pub fn visit<G: Ledger>(&mut self, number: usize, steps: &mut Steps<G>) -> &mut T
        requires { IsLive self.old.values number }
        ensures* writes_back { sem 𝓛 (LendsValue T.row self.entry number result) }
        ensures value { value_at self.old.values number ≡ Some result.now }
        ensures forks { steps.new.forks ≡ steps.old.forks }
        ensures entries { steps.new.entries ≡ steps.old.entries + 1 }
        ensures began { steps.new.began ≡ steps.old.began }
    {
        steps.visit_entry();
        &mut self.values[number]
    }

    /// Takes the value at the number out.
    pub fn remove(&mut self, number: usize) -> T
        requires { IsLive self.old.values number }
        ensures value { value_at self.old.values number ≡ Some result }
        ensures removed { Changes self.old.values self.new.values number None }
        ensures count { count_of self.new + 1 ≡ count_of self.old }
        ensures room { self.new.room ≡ self.old.room }
    {
        self.values.remove(number)
    }
}
