ghost use Rattle.std.specs.Prelude.{◌≡◌, IsTrue, ◌+◌, ◌≤◌, ◌++◌, [], length, true, false, not, filter, ◌≢◌, Some, None, IfOk, OnOk, OnErr, IsOk};
ghost use Rattle.std.specs.List.{list_any};
ghost use Rattle.list_laws.specs.Prefix.{IsPrefix};
ghost use Rattle.std.specs.Ordering.{nat_cmp};
ghost use Rattle.std.specs.BTreeMap.{is_at};
ghost use Rattle.tick_schedule.specs.Moments.{moments_from};
ghost use Rattle.tick_schedule.specs.Queue.{IsRising, Sets, moment_at, due_ids, due_later, without, IsNext};
ghost use Rattle.tick_schedule.specs.Schedule.{IsTied, IsTiedBut};

use crate::due_lists::DueLists;
use crate::places::{Place, Places};
use list_laws::{Ids, Memory};
use std::alloc::Global;
use std::collections::BTreeSet;
use std::marker::Model;
use step_count::{Ledger, Steps};

/// The moments at which ids are due. An id has one moment at most. The queue takes 32 bytes in a vector for each id up
/// to the largest that has had a moment, 8 bytes or more in another for each id that has one, and for each moment that
/// an id has a list and an entry in an ordered map.
pub struct DueQueue {
    places: Places,
    // The same by moment.
    lists: DueLists,
}

impl Drop for DueQueue {
    fn drop(self) {
        let DueQueue {
            places: _places,
            lists: _lists,
        } = self;
    }
}

impl Model for DueQueue {
    ghost use Rattle.std.specs.Prelude.{ℕ, List};
    ghost use Rattle.tick_schedule.specs.Moments.{moments_from};
    ghost use Rattle.tick_schedule.specs.Schedule.{IsTied};

    ghost Value = { List (ℕ × ℕ) };

    ghost view = { λ queue. moments_from 0 queue.places };

    ghost invariant = { λ queue. IsTied queue.places queue.lists };
}

impl DueQueue {
    /// The queue in which nothing is due. It takes no memory.
    pub fn fresh(alloc: Global) -> DueQueue
        ensures { result ≡ [] }
    {
        DueQueue {
            places: Places::fresh(alloc),
            lists: DueLists::fresh(alloc),
        }
    }

    /// Sets the moment at which the id is due, in place of the one that it had.
    #[inline]
    pub fn set(&mut self, alloc: Global, id: usize, due: u64) -> Result<(), Memory>
        ensures ok { OnOk result (Sets self.old self.new id (Some due)) }
        ensures err { OnErr result (self.new ≡ self.old) }
        ensures rising { IsRising self.new }
    {
        if self.is_due_at(id, due) {
            return Ok(());
        }
        self.change(alloc, id, due)
    }

    /// Whether the id has this moment.
    #[inline]
    fn is_due_at(&self, id: usize, moment: u64) -> bool
        ensures moment { IsTrue result → moment_at id self.now ≡ Some moment }
        ensures rising { IsRising self.now }
    {
        self.places.has_moment(id, moment)
    }

    /// Sets the moment of the id, which has none or another one.
    #[inline(never)]
    fn change(&mut self, alloc: Global, id: usize, due: u64) -> Result<(), Memory>
        ensures ok { OnOk result (Sets self.old self.new id (Some due)) }
        ensures err { OnErr result (self.new ≡ self.old) }
        ensures rising { IsRising self.new }
    {
        let before = self.places.get(id);
        self.places.reach(id)?;
        let place = self.lists.push(alloc, due, id)?;
        self.places.set(id, place);
        remove_from_list(&mut self.places, &mut self.lists, before);
        Ok(())
    }

    /// Removes the moment of the id, if it has one.
    pub fn clear(&mut self, id: usize)
        ensures cleared { Sets self.old self.new id None }
        ensures rest { self.new ≡ without id self.old }
        ensures rising { IsRising self.new }
    {
        let before = self.places.remove(id);
        remove_from_list(&mut self.places, &mut self.lists, before);
    }

    /// The least moment at which an id is due.
    pub fn next_due(&self) -> Option<u64>
        ensures { IsNext self.now result }
    {
        self.lists.first()
    }

    /// Appends the ids that are due at or before the moment `now`, by rising id, and removes their moments. It counts
    /// one entry for each.
    pub fn take_due<G: Ledger>(
        &mut self,
        alloc: Global,
        now: u64,
        out: &mut Ids,
        steps: &mut Steps<G>,
    ) -> Result<(), Memory>
        ensures ids { OnOk result (out.new ≡ out.old ++ due_ids now self.old) }
        ensures later { OnOk result (self.new ≡ due_later now self.old) }
        ensures entries { OnOk result (steps.new.entries
            ≡ steps.old.entries + length (due_ids now self.old)) }

        // Where nothing is due it takes no memory.
        ensures quiet { due_ids now self.old ≡ [] → IsOk result }
        ensures err { OnErr result (self.new ≡ self.old) }
        ensures rising { IsRising self.new }
        ensures prefix { OnErr result (IsPrefix out.old out.new) }
        ensures at_most { steps.new.entries ≤ steps.old.entries + length (due_ids now self.old) }
        ensures at_least { steps.old.entries ≤ steps.new.entries }
        ensures forks { steps.new.forks ≡ steps.old.forks }
        ensures began { steps.new.began ≡ steps.old.began }
    {
        if !self.is_due(now) {
            return Ok(());
        }
        let ids = self.due_ids(alloc, now)?;
        push_all(alloc, &ids, out, steps)?;
        self.clear_all(&ids);
        Ok(())
    }

    /// Whether an id is due at or before the moment.
    pub fn is_due(&self, now: u64) -> bool
        ensures none { result ≡ false → due_ids now self.now ≡ [] }
        ensures some { result ≡ true → due_ids now self.now ≢ [] }
        ensures rising { IsRising self.now }
    {
        match self.lists.first() {
            Some(next) => next <= now,
            None => false,
        }
    }

    /// The ids that are due at or before the moment.
    pub fn due_ids(&self, alloc: Global, now: u64) -> Result<BTreeSet<usize>, Memory>
        ensures { IfOk result (λ ids. ids.keys ≡ due_ids now self.now) }
    {
        self.lists.ids_until(alloc, now)
    }

    /// Removes the moments of the ids.
    pub fn clear_all(&mut self, ids: &BTreeSet<usize>)
        ensures { self.new ≡ filter (λ entry.
            not (list_any (is_at (nat_cmp entry.0)) ids.now.keys)) self.old }
    {
        for id in ids {
            self.clear(*id);
        }
    }
}

/// Appends the ids, and counts one entry for each.
fn push_all<G: Ledger>(
    alloc: Global,
    ids: &BTreeSet<usize>,
    out: &mut Ids,
    steps: &mut Steps<G>,
) -> Result<(), Memory>
    ensures ids { OnOk result (out.new ≡ out.old ++ ids.now.keys) }
    ensures entries { OnOk result (steps.new.entries ≡ steps.old.entries + length ids.now.keys) }
    ensures prefix { OnErr result (IsPrefix out.old out.new) }
    ensures at_most { steps.new.entries ≤ steps.old.entries + length ids.now.keys }
    ensures at_least { steps.old.entries ≤ steps.new.entries }
    ensures forks { steps.new.forks ≡ steps.old.forks }
    ensures began { steps.new.began ≡ steps.old.began }
{
    for id in ids {
        steps.visit_entry();
        out.push(alloc, *id)?;
    }
    Ok(())
}

/// Removes the id at the place, if there is one, from the list of its moment. The id that comes to its index has that
/// place from then on.
fn remove_from_list(places: &mut Places, lists: &mut DueLists, place: Option<Place>)
    requires { IsTiedBut place places.old lists.old }
    ensures tied { IsTied places.new lists.new }
    ensures moments { moments_from 0 places.new ≡ moments_from 0 places.old }
{
    let Some(place) = place else {
        return;
    };
    if let Some(moved) = lists.remove(&place) {
        places.set(moved, place);
    }
}
