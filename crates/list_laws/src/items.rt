ghost use Rattle.std.specs.Prelude.{◌≡◌, ◌<◌, List, [], ◌∷◌, ◌++◌, length, take, slice_index_or, OnOk, OnErr};
ghost use Rattle.std.specs.Borrow.{sem};

use crate::Memory;
use std::alloc::Global;
use std::marker::Model;
use std::mem::size_of_val;

// An item of more bytes than this is large.
const LARGE: usize = 64;

// A list that is cleared keeps its memory if that is for at most this many items.
const KEPT: usize = 16;

/// A growing list, which contracts see as the list of its items.
pub struct Items<T> {
    items: Vec<T>,
}

impl<T: Drop> Drop for Items<T> {
    fn drop(self) {
        let Items { items: _items } = self;
    }
}

/// A list of numbers by which a table knows its entries.
pub type Ids = Items<usize>;

impl<T> Model for Items<T> {
    ghost Value = { List T };

    ghost view = { λ list. list.items.items };
}

impl<T: Drop> Items<T> {
    ghost use Rattle.list_laws.specs.Lending.{LendsItem};

    /// The empty list. It takes no memory.
    pub fn fresh(alloc: Global) -> Items<T>
        ensures { result ≡ [] }
    {
        Items {
            items: Vec::new(alloc),
        }
    }

    /// The list of the vector's items, with no copy.
    pub fn from_vec(items: Vec<T>) -> Items<T>
        ensures { result ≡ items.items }
    {
        Items { items }
    }

    /// The items as a vector, with no copy.
    pub fn into_vec(self) -> Vec<T>
        ensures { result.items ≡ self }
    {
        let Items { items } = self;
        items
    }

    pub fn as_slice(&self) -> &[T]
        ensures { result.now ≡ self.now }
    {
        self.items.as_slice()
    }

    pub fn len(&self) -> usize
        ensures { result ≡ length self.now }
    {
        self.items.len()
    }

    pub fn get(&self, i: usize) -> &T
        requires { i < length self.now }
        ensures { result.now ≡ slice_index_or self.now i result.now }
    {
        &self.items[i]
    }

    /// The item, for writing.
    pub fn get_mut(&mut self, i: usize) -> &mut T
        requires { i < length self.old }
        ensures* writes_back { sem 𝓛 (LendsItem T.row self.entry i result) }
        ensures value { result.now ≡ slice_index_or self.old i result.now }
    {
        &mut self.items[i]
    }

    /// Adds the item at the end. A list of large items takes room for one first, since most such lists have no more.
    #[inline(always)]
    pub fn push(&mut self, _alloc: Global, item: T) -> Result<(), Memory>
        ensures ok { OnOk result (self.new ≡ self.old ++ item ∷ []) }
        ensures err { OnErr result (self.new ≡ self.old) }
    {
        if size_of_val(&item) > LARGE && self.items.capacity() == 0 {
            self.items.reserve_exact(1)?;
        }
        self.items.push(item)?;
        Ok(())
    }

    /// Removes all items. The list keeps its memory if that is for at most 16 items.
    pub fn clear(&mut self, alloc: Global)
        ensures { self.new ≡ [] }
    {
        if self.items.capacity() > KEPT {
            self.items = Vec::new(alloc);
            return;
        }
        self.items.clear();
    }

    /// Removes all items but the first `len`. The list keeps its memory.
    pub fn truncate(&mut self, len: usize)
        ensures { self.new ≡ take len self.old }
    {
        self.items.truncate(len);
    }
}
