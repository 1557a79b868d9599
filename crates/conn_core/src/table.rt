ghost use Rattle.std.specs.Prelude.{◌≡◌, ◌<◌, true, [], ◌∷◌, ◌++◌, length, remove, slice_index_or, slice_set, IfErr, IfOk, IsTrue, MatchOption, OnErr, OnOk};
ghost use Rattle.std.specs.Borrow.{sem};
ghost use Rattle.conn_core.specs.Kept.{is_newer, number_at, AreRising, HasNoNumber, HasNumberAt, IsAbsent, IsAt};
ghost use Rattle.conn_core.specs.Lending.{LendsValue};

use list_laws::{Items, Memory};
use ports::{Want, Wants};
use std::alloc::Global;
use std::marker::Model;
use std::mem;

/// Values of links, by rising number, and what is wanted of each link. A link is found by its number without a look at
/// all of them, and no number comes twice.
#[derive(Drop)]
pub struct LinkTable<T> {
    // the want and the value of a link are at the same place
    wants: Wants,
    values: Vec<T>,
    // the greatest number so far
    newest: Option<u64>,
}

impl<T> Model for LinkTable<T> {
    ghost use Rattle.std.specs.Prelude.{◌≡◌, length};
    ghost use Rattle.conn_core.specs.Kept.{AreOld, AreRising, Kept};

    ghost Value = { Kept T };

    ghost view = { λ table. record {
      wants = table.wants;
      values = table.values.items;
      newest = table.newest;
    } };

    ghost invariant = { λ table. (AreRising table.wants) × (AreOld table.newest table.wants)
        × (length table.wants ≡ length table.values.items) };
}

impl<T: Drop> LinkTable<T> {
    /// The table of no links. It takes no memory.
    pub fn fresh(alloc: Global) -> LinkTable<T>
        ensures wants { result.wants ≡ [] }
        ensures values { result.values ≡ [] }
        ensures newest { result.newest ≡ None }
    {
        LinkTable {
            wants: Items::fresh(alloc),
            values: Vec::new(alloc),
            newest: None,
        }
    }

    /// What is wanted of each link, by rising number.
    pub fn wants(&self) -> &Wants
        ensures same { result.now ≡ self.now.wants }
        ensures rising { AreRising self.now.wants }
    {
        &self.wants
    }

    /// How many links there are.
    pub fn len(&self) -> usize
        ensures value { result ≡ length self.now.values }
        ensures beside { length self.now.wants ≡ length self.now.values }
    {
        self.values.len()
    }

    /// The place of the link of this number.
    pub fn find(&self, number: u64) -> Option<usize>
        ensures { MatchOption result (IsAbsent number self.now) (IsAt number self.now) }
    {
        match place_of(self.wants.as_slice(), number) {
            Ok(place) => Some(place),
            Err(_) => None,
        }
    }

    /// Whether the number is above all that came so far.
    pub fn is_newer(&self, number: u64) -> bool
        ensures value { result ≡ is_newer number self.now.newest }
        ensures absent { IsTrue result → IsAbsent number self.now }
    {
        match self.newest {
            Some(newest) => newest < number,
            None => true,
        }
    }

    /// Notes a number that is above all that came so far, of a link that is not added.
    pub fn note(&mut self, number: u64)
        requires { is_newer number self.old.newest ≡ true }
        ensures { self.new ≡ record self.old { newest = Some number } }
    {
        self.newest = Some(number);
    }

    /// Adds a link whose number is above all that came so far.
    pub fn add(&mut self, alloc: Global, want: Want, value: T) -> Result<(), Memory>
        requires { is_newer want.link self.old.newest ≡ true }
        ensures wants { OnOk result (self.new.wants ≡ self.old.wants ++ want ∷ []) }
        ensures values { OnOk result (self.new.values ≡ self.old.values ++ value ∷ []) }
        ensures newest { OnOk result (self.new.newest ≡ Some want.link) }
        ensures err { OnErr result (self.new ≡ self.old) }
    {
        self.values.reserve(1)?;
        self.wants.push(alloc, want)?;
        self.values.push_reserved(value);
        self.newest = Some(want.link);
        Ok(())
    }

    /// The value at this place, for reading.
    pub fn value(&self, place: usize) -> &T
        requires { place < length self.now.values }
        ensures { result.now ≡ slice_index_or self.now.values place result.now }
    {
        &self.values[place]
    }

    /// The value at this place, for writing.
    pub fn value_mut(&mut self, place: usize) -> &mut T
        requires { place < length self.old.values }
        ensures* writes_back { sem 𝓛 (LendsValue T.row self.entry place result) }
        ensures value { result.now ≡ slice_index_or self.old.values place result.now }
    {
        &mut self.values[place]
    }

    /// Changes what is wanted of the link at this place. It takes no memory.
    pub fn set_want(&mut self, alloc: Global, place: usize, read: bool, room: bool)
        requires { place < length self.old.values }
        ensures wants { self.new.wants ≡ slice_set self.old.wants place (record {
          link = number_at self.old.wants place;
          read = read;
          room = room;
        }) }
        ensures values { self.new.values ≡ self.old.values }
        ensures newest { self.new.newest ≡ self.old.newest }
    {
        let mut wants = mem::replace(&mut self.wants, Items::fresh(alloc)).into_vec();
        let link = wants[place].link;
        wants[place] = Want { link, read, room };
        self.wants = Items::from_vec(wants);
    }

    /// Removes the link at this place. It takes no memory.
    pub fn remove(&mut self, alloc: Global, place: usize)
        requires { place < length self.old.values }
        ensures wants { self.new.wants ≡ remove self.old.wants place }
        ensures values { self.new.values ≡ remove self.old.values place }
        ensures newest { self.new.newest ≡ self.old.newest }
    {
        let mut wants = mem::replace(&mut self.wants, Items::fresh(alloc)).into_vec();
        let _want = wants.remove(place);
        self.wants = Items::from_vec(wants);
        let _value = self.values.remove(place);
    }
}

/// The place of the want of this number, or else where it would be.
fn place_of(wants: &[Want], number: u64) -> Result<usize, usize>
    requires { AreRising wants.now }
    ensures found { IfOk result (HasNumberAt number wants.now) }
    ensures absent { IfErr result (λ _. HasNoNumber number wants.now) }
{
    wants.binary_search_by_key(&number, |want| want.link)
}
