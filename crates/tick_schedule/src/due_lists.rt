ghost use Rattle.std.specs.Prelude.{◌≡◌, ℕ, List, ◌<◌, ◌∷◌, ◌++◌, ◌↔◌, [], length, nat_le, IsSome, IsTrue, Some, None, MatchOption, IfOk, OnErr, OnOk};
ghost use Rattle.std.specs.BTreeSet.{IsFromIterResult};
ghost use Rattle.std.specs.List.{flat_map, take_while};
ghost use Rattle.std.specs.List.Sorted.{IsStrictlySortedBy};
ghost use Rattle.std.specs.Map.{keys_of};
ghost use Rattle.std.specs.Ordering.{nat_cmp};
ghost use Rattle.slab.specs.Slab.{HasRoomFor};
ghost use Rattle.tick_schedule.specs.Lists.{AddsAt, AreListedBy, IsFirst, ListChange, Removes, RemovesAt, id_at, ids_of};
ghost use Rattle.tick_schedule.specs.Numbers.{AreNumbered, IsFirstNumber, IsListOf, Relists, list_under, list_with, lists_of, number_at};

use crate::id_list::IdList;
use crate::places::Place;
use list_laws::Memory;
use slab::Slab;
use std::alloc::{AllocError, Global};
use std::collections::{BTreeMap, BTreeSet};
use std::marker::Model;

/// The ids that are due at each moment. A moment without ids takes no memory.
pub(crate) struct DueLists {
    // The number of the list of each moment.
    numbers: BTreeMap<u64, usize>,
    lists: Slab<DueList>,

    // The least moment that has a list.
    first: Option<u64>,
    // The number of the list that got an id last, which is often that of the next id too.
    recent: usize,
}

impl Drop for DueLists {
    fn drop(self) {
        let DueLists {
            numbers: _numbers,
            lists: _lists,
            first: _first,
            recent: _recent,
        } = self;
    }
}

/// The ids that are due at one moment.
#[derive(Drop)]
struct DueList {
    moment: u64,
    ids: IdList,
}

impl Model for DueLists {
    ghost use Rattle.std.specs.Prelude.{ℕ, List};
    ghost use Rattle.tick_schedule.specs.Numbers.{AreDue, lists_of};

    ghost Value = { List (ℕ × List ℕ) };

    ghost view = { λ due. lists_of due.numbers.entries due.lists.slots };

    ghost invariant = { λ due. AreDue due.numbers.entries due.lists.slots due.first };
}

impl DueLists {
    /// No id is due. It takes no memory.
    pub(crate) fn fresh(alloc: Global) -> DueLists
        ensures { result ≡ [] }
    {
        DueLists {
            numbers: BTreeMap::new(alloc),
            lists: Slab::new(alloc),
            first: None,
            recent: 0,
        }
    }

    /// Adds the id to those of the moment, and gives its place.
    pub(crate) fn push(&mut self, alloc: Global, moment: u64, id: usize) -> Result<Place, Memory>
        ensures ok { IfOk result (λ place. AddsAt self.old self.new moment place.index id) }
        ensures moment { IfOk result (λ place. place.moment ≡ moment) }
        ensures err { OnErr result (self.new ≡ self.old) }
    {
        let Some(list) = number_of(&self.numbers, &self.lists, moment, self.recent) else {
            self.recent = open(alloc, &mut self.numbers, &mut self.lists, moment, id)?;
            self.first = first_moment(&self.numbers);
            return Ok(Place::new(moment, 0, self.recent));
        };
        let index = push_at(&mut self.lists, list, id)?;
        self.recent = list;
        Ok(Place::new(moment, index, list))
    }

    /// Removes the id at the place. The last id of its moment comes there, and is the answer, unless it was there.
    pub(crate) fn remove(&mut self, place: &Place) -> Option<usize>
        requires { IsSome (id_at place.now.moment place.now.index self.old) }
        ensures { RemovesAt self.old self.new place.now.moment place.now.index result }
    {
        let moment = place.moment();
        let Some(list) = number_of(&self.numbers, &self.lists, moment, place.list()) else {
            return None;
        };
        let (moved, is_empty) = remove_at(&mut self.lists, list, place.index());
        if is_empty {
            close(&mut self.numbers, &mut self.lists, moment, list);
            self.first = first_moment(&self.numbers);
        }
        moved
    }

    /// The least moment that has ids.
    pub(crate) fn first(&self) -> Option<u64>
        ensures { IsFirst self.now result }
    {
        self.first
    }

    /// The ids that are due at or before the moment.
    pub(crate) fn ids_until(&self, alloc: Global, now: u64) -> Result<BTreeSet<usize>, Memory>
        ensures ids { IfOk result (λ ids. AreListedBy now ids.keys self.now) }
        ensures rising { IfOk result (λ ids. IsStrictlySortedBy nat_cmp ids.keys) }
    {
        let moments = moments_until(alloc, &self.numbers, now)?;
        let ids = listed_at(alloc, &self.numbers, &self.lists, moments)?;
        Ok(set_of(alloc, ids)?)
    }
}

/// The number of the moment's list, if it has one. It is looked for under `hint` first.
fn number_of(
    numbers: &BTreeMap<u64, usize>,
    lists: &Slab<DueList>,
    moment: u64,
    hint: usize,
) -> Option<usize>
    requires { AreNumbered numbers.now.entries lists.now.slots }
    ensures { result ≡ number_at moment numbers.now.entries }
{
    if is_list_of(lists, hint, moment) {
        return Some(hint);
    }
    numbers.get(&moment).copied()
}

/// Whether the list under the number is that of the moment.
fn is_list_of(lists: &Slab<DueList>, number: usize, moment: u64) -> bool
    ensures { IsTrue result → IsListOf moment (list_under number lists.now.slots) }
{
    match lists.get(number) {
        Some(list) => list.moment == moment,
        None => false,
    }
}

/// The least moment that has a number.
fn first_moment(numbers: &BTreeMap<u64, usize>) -> Option<u64>
    ensures { IsFirstNumber numbers.now.entries result }
{
    match numbers.first_key_value() {
        Some((moment, _)) => Some(*moment),
        None => None,
    }
}

/// Makes a list for the moment, which has none, with the id in it. The answer is its number: that of the list that was
/// removed last, if it is still free. Room for one more list is taken only where there is none.
fn open(
    alloc: Global,
    numbers: &mut BTreeMap<u64, usize>,
    lists: &mut Slab<DueList>,
    moment: u64,
    id: usize,
) -> Result<usize, Memory>
    requires numbered { AreNumbered numbers.old.entries lists.old.slots }
    requires absent { number_at moment numbers.old.entries ≡ None }
    ensures numbered { AreNumbered numbers.new.entries lists.new.slots }
    ensures ok { IfOk result (λ list. ListChange
        (lists_of numbers.old.entries lists.old.slots)
        (lists_of numbers.new.entries lists.new.slots)
        moment (Some (id ∷ []))) }
    ensures err { OnErr result (lists_of numbers.new.entries lists.new.slots
        ≡ lists_of numbers.old.entries lists.old.slots) }
    ensures same { OnErr result (numbers.new.entries ≡ numbers.old.entries) }
    ensures number { IfOk result (λ list. list ≡ lists.old.vacant_key) }
    ensures room { HasRoomFor lists.old 1 → lists.new.capacity ≡ lists.old.capacity }
{
    let ids = IdList::of(alloc, id)?;
    lists.reserve(1)?;
    numbers.insert(moment, lists.vacant_key())?;
    Ok(lists.insert_reserved(DueList { moment, ids }))
}

/// Removes the moment's list, which has this number and no ids. The next list that is made has the number again.
fn close(numbers: &mut BTreeMap<u64, usize>, lists: &mut Slab<DueList>, moment: u64, list: usize)
    requires numbered { AreNumbered numbers.old.entries lists.old.slots }
    requires number { number_at moment numbers.old.entries ≡ Some list }
    ensures numbered { AreNumbered numbers.new.entries lists.new.slots }
    ensures closed { ListChange
        (lists_of numbers.old.entries lists.old.slots)
        (lists_of numbers.new.entries lists.new.slots)
        moment None }
    ensures free { lists.new.vacant_key ≡ list }
    ensures room { HasRoomFor lists.new 1 }
    ensures capacity { lists.new.capacity ≡ lists.old.capacity }
{
    numbers.remove(&moment);
    lists.remove(list);
}

/// Adds the id to the list under the number, and gives its index there.
fn push_at(lists: &mut Slab<DueList>, number: usize, id: usize) -> Result<usize, Memory>
    requires { IsSome (list_under number lists.old.slots) }
    ensures ok { IfOk result (λ index. MatchOption (list_under number lists.old.slots) ⊥ (λ list.
        (index ≡ length list.ids) × Relists lists.old.slots lists.new.slots number
        (Some (list_with list.moment (list.ids ++ id ∷ []))))) }
    ensures err { OnErr result (lists.new.slots ≡ lists.old.slots) }
{
    lists[number].ids.push(id)
}

/// Removes the id at the index in the list under the number. The answer is the id that came there, if one did, and
/// whether the list is empty now.
fn remove_at(lists: &mut Slab<DueList>, number: usize, index: usize) -> (Option<usize>, bool)
    requires { MatchOption (list_under number lists.old.slots) ⊥ (λ list. index < length list.ids) }
    ensures { MatchOption (list_under number lists.old.slots) ⊥ (λ list. (left : List ℕ)
        × Removes list.ids left index result.0
        × Relists lists.old.slots lists.new.slots number (Some (list_with list.moment left))
        × (IsTrue result.1 ↔ (left ≡ []))) }
{
    let list = &mut lists[number];
    let moved = list.ids.remove(index);
    (moved, list.ids.is_empty())
}

/// The moments at or before `now` that have a list, in order.
fn moments_until(
    alloc: Global,
    numbers: &BTreeMap<u64, usize>,
    now: u64,
) -> Result<Vec<u64>, AllocError>
    ensures moments { IfOk result (λ moments. moments.items
        ≡ take_while (λ moment. nat_le moment now) (keys_of numbers.now.entries)) }
    ensures rising { IsStrictlySortedBy nat_cmp (keys_of numbers.now.entries) }
{
    let due = numbers.keys().take_while(|moment| **moment <= now);
    due.copied().collect(alloc)
}

/// The ids in the lists of these moments, one list after another.
fn listed_at(
    alloc: Global,
    numbers: &BTreeMap<u64, usize>,
    lists: &Slab<DueList>,
    moments: Vec<u64>,
) -> Result<Vec<usize>, AllocError>
    ensures { IfOk result (λ ids. ids.items
        ≡ flat_map (ids_of (lists_of numbers.now.entries lists.now.slots)) moments.items) }
{
    let mut ids = Vec::new(alloc);
    for moment in moments {
        append_at(numbers, lists, moment, &mut ids)?;
    }
    Ok(ids)
}

/// Appends the ids in the list of the moment, if it has one.
fn append_at(
    numbers: &BTreeMap<u64, usize>,
    lists: &Slab<DueList>,
    moment: u64,
    out: &mut Vec<usize>,
) -> Result<(), AllocError>
    ensures { OnOk result (out.new.items ≡ out.old.items
        ++ ids_of (lists_of numbers.now.entries lists.now.slots) moment) }
{
    if let Some(number) = numbers.get(&moment) {
        if let Some(list) = lists.get(*number) {
            out.extend_from_slice(list.ids.as_slice())?;
        }
    }
    Ok(())
}

fn set_of(alloc: Global, ids: Vec<usize>) -> Result<BTreeSet<usize>, AllocError>
    ensures { IfOk result (IsFromIterResult nat_cmp ids.items) }
{
    ids.into_iter().collect(alloc)
}
