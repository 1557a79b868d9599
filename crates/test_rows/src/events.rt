//! Events that a file of rows names.

use crate::line::RowFault;
use crate::reading::readable;
use crate::spelled::read_spelled;
use ev_types::{Blob, Event, Text};
use pb_wire::{PutBody, put_field};
use riemann_msg::read_msg;
use std::alloc::Global;

/// The moment at which messages are read.
pub const NOW: u64 = 1_000;

/// The number of the field of a message that is an event.
const EVENTS: u32 = 6;

/// An event, and the name that rows have for it.
pub struct Named {
    pub name: Text,
    pub event: Event,
}

impl Drop for Named {
    fn drop(self) {
        let Named {
            name: _name,
            event: _event,
        } = self;
    }
}

/// Appends a message of this one event.
pub fn embed(alloc: Global, event: &[u8], body: &mut Blob) -> Result<(), RowFault> {
    put_field(alloc, body, EVENTS, PutBody::Bytes(event))?;
    Ok(())
}

/// The event that the bytes spell, which are those of an event in a message.
pub fn read_event(alloc: Global, name: &str, text: &str) -> Result<Named, RowFault> {
    let event = read_spelled(alloc, text)?;
    let mut body = Blob::fresh(alloc);
    embed(alloc, event.as_slice(), &mut body)?;
    let msg = readable(read_msg(alloc, body.as_slice(), NOW))?;
    let event = msg.events.into_vec().pop().ok_or(RowFault::Unreadable)?;
    let name = Text::from_str(alloc, name)?;
    Ok(Named { name, event })
}

/// The event of this name.
pub fn find_event<'a>(named: &'a [Named], name: &str) -> Result<&'a Event, RowFault> {
    for one in named {
        if one.name.as_str() == name {
            return Ok(&one.event);
        }
    }
    Err(RowFault::Unreadable)
}
