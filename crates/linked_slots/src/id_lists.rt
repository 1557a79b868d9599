ghost use Rattle.std.specs.Prelude.{◌≡◌, ℕ, ◌+◌, ◌<◌, ◌≤◌, [], length, replicate, IfOk, OnOk, OnErr};
ghost use Rattle.linked_slots.specs.IdLists.{list_at, times, times_in, IsListed, AreApart, without, append_to, first_of, last_of, following};
ghost use Rattle.linked_slots.specs.Nodes.{IsLinked};

use crate::nodes::{Change, Node, add_node, cut, id_after, id_before, tie};
use http_server::Log;
use list_laws::Memory;
use slab::Slab;
use std::alloc::Global;
use std::marker::Model;

/// Lists of ids, by number from 0. An id is in one list, once. After [`Lists::reserve`] the calls take constant time
/// and no memory.
pub struct Lists {
    // Each list is a ring of nodes: its head, and then its ids in order. An id is the slot number of its node.
    nodes: Slab<Node>,
    heads: Vec<usize>,

    // How many nodes fit since the last call of `reserve` that had memory.
    room: usize,

    // A log is a list that only proofs see, and has no bytes.
    changes: Log<Change, ()>,
}

impl Drop for Lists {
    fn drop(self) {
        let Lists {
            nodes: _nodes,
            heads: _heads,
            room: _room,
            changes: _changes,
        } = self;
    }
}

impl Model for Lists {
    ghost use Rattle.std.specs.Prelude.{◌-◌};
    ghost use Rattle.slab.specs.Slab.{slab_len};
    ghost use Rattle.linked_slots.specs.IdLists.{IdLists};
    ghost use Rattle.linked_slots.specs.Nodes.{AreKept, lists_after};

    ghost Value = { IdLists };

    ghost view = { λ all. record {
      lists = lists_after all.heads.items all.changes.items;
      spare = all.room - slab_len all.nodes;
    } };

    ghost invariant = { λ all. AreKept (lists_after all.heads.items all.changes.items)
        all.nodes all.heads.items all.room };
}

impl Lists {
    /// `lists` empty lists.
    pub fn fresh(alloc: Global, lists: usize) -> Result<Lists, Memory>
        ensures { IfOk result (λ all. all.lists ≡ replicate lists []) }
    {
        let mut nodes = Slab::new(alloc);
        let mut heads = Vec::new(alloc);
        for _ in 0..lists {
            add_head(&mut nodes, &mut heads)?;
        }
        let room = nodes.capacity();
        Ok(Lists {
            nodes,
            heads,
            room,
            changes: Log::new(),
        })
    }

    /// Makes room for `n` more ids.
    ///
    /// After [`Memory`] the lists are unchanged, and there is room for exactly as many ids as before.
    pub fn reserve(&mut self, _alloc: Global, n: usize) -> Result<(), Memory>
        ensures room { OnOk result (n ≤ self.new.spare) }
        ensures lists { self.new.lists ≡ self.old.lists }
        ensures spare { self.old.spare ≤ self.new.spare }
        ensures err { OnErr result (self.new ≡ self.old) }
        ensures apart { AreApart self.new.lists }
    {
        self.nodes.reserve(n)?;
        self.room = self.nodes.capacity();
        Ok(())
    }

    /// Adds an id to the end of the list of this number. The table picks one that is in no list.
    pub fn insert(&mut self, list: usize) -> usize
        requires list { list < length self.old.lists }
        requires spare { 0 < self.old.spare }
        ensures fresh { times result self.old.lists ≡ 0 }
        ensures appended { self.new.lists ≡ append_to list result self.old.lists }
        ensures spare { self.new.spare + 1 ≡ self.old.spare }
        ensures apart { AreApart self.new.lists }
    {
        let id = add_node(&mut self.nodes, false);
        tie(&mut self.nodes, id, self.heads[list]);
        self.changes = self.changes.and(&Change::Append(list, id), &());
        id
    }

    /// Removes the id. There is room for one more id then.
    pub fn unlink(&mut self, id: usize)
        requires { IsListed id self.old.lists }
        ensures removed { self.new.lists ≡ without id self.old.lists }
        ensures spare { self.new.spare ≡ self.old.spare + 1 }
        ensures apart { AreApart self.new.lists }
    {
        cut(&mut self.nodes, id);
        self.nodes.remove(id);
        self.changes = self.changes.and(&Change::Remove(id), &());
    }

    /// Moves the id from its list to the end of the list of this number.
    pub fn move_back(&mut self, list: usize, id: usize)
        requires list { list < length self.old.lists }
        requires id { IsListed id self.old.lists }
        ensures moved { self.new.lists ≡ append_to list id (without id self.old.lists) }
        ensures spare { self.new.spare ≡ self.old.spare }
        ensures apart { AreApart self.new.lists }
    {
        let head = self.heads[list];
        cut(&mut self.nodes, id);
        tie(&mut self.nodes, id, head);
        self.changes = self.changes.and(&Change::Remove(id), &());
        self.changes = self.changes.and(&Change::Append(list, id), &());
    }

    /// The first id of the list of this number.
    pub fn front(&self, list: usize) -> Option<usize>
        requires { list < length self.now.lists }
        ensures front { result ≡ first_of (list_at self.now.lists list) }
        ensures apart { AreApart self.now.lists }
    {
        id_after(&self.nodes, self.heads[list])
    }

    /// The last id of the list of this number.
    pub fn back(&self, list: usize) -> Option<usize>
        requires { list < length self.now.lists }
        ensures back { result ≡ last_of (list_at self.now.lists list) }
        ensures apart { AreApart self.now.lists }
    {
        id_before(&self.nodes, self.heads[list])
    }

    /// The id that follows this one in its list.
    pub fn next(&self, id: usize) -> Option<usize>
        requires { IsListed id self.now.lists }
        ensures next { (list : ℕ) → 0 < times_in id (list_at self.now.lists list)
            → result ≡ following id (list_at self.now.lists list) }
        ensures apart { AreApart self.now.lists }
    {
        id_after(&self.nodes, id)
    }
}

/// Adds the head of an empty list.
fn add_head(nodes: &mut Slab<Node>, heads: &mut Vec<usize>) -> Result<(), Memory>
    ensures more { OnOk result (length heads.new.items ≡ length heads.old.items + 1) }
    ensures linked { OnOk result (
        IsLinked (replicate (length heads.old.items) []) nodes.old.slots heads.old.items
        → IsLinked (replicate (length heads.new.items) []) nodes.new.slots heads.new.items) }
{
    nodes.reserve(1)?;
    heads.push(add_node(nodes, true))?;
    Ok(())
}
