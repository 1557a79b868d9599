ghost use Rattle.std.specs.Prelude.{◌≡◌, ◌++◌, IfOk, OnOk};

use crate::{Event, Events, Items, Memory, Text};
use std::alloc::Global;

/// What a stream takes and gives: an event, or a vector of events.
pub enum Item {
    One(Event),
    Many(Events),
}

impl Drop for Item {
    fn drop(self) {
        match self {
            Item::One(_event) => {}
            Item::Many(_events) => {}
        }
    }
}

/// An item that a stream hands to one of its branches.
#[derive(Drop)]
pub struct Emission {
    /// The number of the branch, from 0.
    pub branch: u32,
    pub item: Item,
}

/// A list of emissions, in the order in which they were made.
pub type Emissions = Items<Emission>;

/// An item that a stream gave out under a name.
pub struct Notice {
    pub name: Text,
    /// When it was given, in seconds since 1970.
    pub moment: u64,
    pub item: Item,
}

impl Drop for Notice {
    fn drop(self) {
        let Notice {
            name: _name,
            moment: _moment,
            item: _item,
        } = self;
    }
}

/// A list of notices, in the order in which they were given.
pub type Notices = Items<Notice>;

/// What streams do to the outside.
#[derive(Drop)]
pub enum Output {
    Notice(Notice),
    /// The event is written to the index.
    Write(Event),
}

/// A list of outputs, in the order in which they were made.
pub type Outputs = Items<Output>;

impl Item {
    /// An equal item, in memory of its own.
    pub fn copy(&self, alloc: Global) -> Result<Item, Memory>
        ensures { IfOk result (λ item. item ≡ self.now) }
    {
        match self {
            Item::One(event) => Ok(Item::One(event.copy(alloc)?)),
            Item::Many(events) => Ok(Item::Many(copy_events(alloc, events)?)),
        }
    }
}

fn copy_events(alloc: Global, events: &Events) -> Result<Events, Memory>
    ensures { IfOk result (λ copied. copied ≡ events.now) }
{
    let events = events.as_slice();
    let mut copied = Vec::with_capacity(alloc, events.len())?;
    add_events(alloc, &mut copied, events)?;
    Ok(Events::from_vec(copied))
}

fn add_events(alloc: Global, copied: &mut Vec<Event>, events: &[Event]) -> Result<(), Memory>
    ensures { OnOk result (copied.new.items ≡ copied.old.items ++ events.now) }
{
    for event in events {
        copied.push(event.copy(alloc)?)?;
    }
    Ok(())
}
