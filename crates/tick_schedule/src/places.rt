ghost use Rattle.std.specs.Prelude.{◌≡◌, ◌↔◌, ℕ, ◌<◌, [], length, slice_set, None, Some, IsTrue, OnOk};
ghost use Rattle.tick_schedule.specs.Moments.{at, moment_in, moments_from, place_at};

use list_laws::Memory;
use std::alloc::Global;
use std::marker::Model;
use std::mem;

/// Where an id is: the moment at which it is due, and its index among the ids of that moment. The number of their list
/// is kept too. Contracts do not see it, so each use checks that the list under it is that of the moment.
#[derive(Drop)]
pub(crate) struct Place {
    moment: u64,
    index: usize,
    list: usize,
}

impl Model for Place {
    ghost use Rattle.tick_schedule.specs.Moments.{Place, at};

    ghost Value = { Place };

    ghost view = { λ place. at place.moment place.index };
}

impl Place {
    pub(crate) fn new(moment: u64, index: usize, list: usize) -> Place
        ensures { result ≡ at moment index }
    {
        Place {
            moment,
            index,
            list,
        }
    }

    pub(crate) fn moment(&self) -> u64
        ensures { result ≡ self.now.moment }
    {
        self.moment
    }

    pub(crate) fn index(&self) -> usize
        ensures { result ≡ self.now.index }
    {
        self.index
    }

    pub(crate) fn list(&self) -> usize {
        self.list
    }

    fn copied(&self) -> Place
        ensures { result ≡ self.now }
    {
        Place::new(self.moment, self.index, self.list)
    }
}

/// The place of each id that has one. An id takes memory for each id below it.
#[derive(Drop)]
pub(crate) struct Places {
    by_id: Vec<Option<Place>>,
}

impl Model for Places {
    ghost use Rattle.std.specs.Prelude.{List, Option};
    ghost use Rattle.tick_schedule.specs.Moments.{Place};

    ghost Value = { List (Option Place) };

    ghost view = { λ places. places.by_id.items };
}

impl Places {
    /// No id has a place. It takes no memory.
    pub(crate) fn fresh(alloc: Global) -> Places
        ensures { result ≡ [] }
    {
        Places {
            by_id: Vec::new(alloc),
        }
    }

    /// The place of the id, if it has one.
    pub(crate) fn get(&self, id: usize) -> Option<Place>
        ensures { result ≡ place_at id self.now }
    {
        match self.by_id.get(id) {
            Some(Some(place)) => Some(place.copied()),
            _ => None,
        }
    }

    /// Whether the id has a place with this moment.
    #[inline]
    pub(crate) fn has_moment(&self, id: usize, moment: u64) -> bool
        ensures { IsTrue result ↔ (moment_in (place_at id self.now) ≡ Some moment) }
    {
        match self.by_id.get(id) {
            Some(Some(place)) => place.moment == moment,
            _ => false,
        }
    }

    /// Makes a slot for the place of the id.
    pub(crate) fn reach(&mut self, id: usize) -> Result<(), Memory>
        ensures places { (other : ℕ) → place_at other self.new ≡ place_at other self.old }
        ensures moments { moments_from 0 self.new ≡ moments_from 0 self.old }
        ensures slot { OnOk result (id < length self.new) }
    {
        while self.by_id.len() <= id {
            self.by_id.push(None)?;
        }
        Ok(())
    }

    /// Sets the place of the id, in place of the one that it had.
    pub(crate) fn set(&mut self, id: usize, place: Place)
        requires { id < length self.old }
        ensures { self.new ≡ slice_set self.old id (Some place) }
    {
        self.by_id[id] = Some(place);
    }

    /// Removes the place of the id, and gives it, if there is one.
    pub(crate) fn remove(&mut self, id: usize) -> Option<Place>
        ensures removed { result ≡ place_at id self.old }
        ensures rest { self.new ≡ slice_set self.old id None }
    {
        if id >= self.by_id.len() {
            return None;
        }
        mem::replace(&mut self.by_id[id], None)
    }
}
