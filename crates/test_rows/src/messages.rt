//! Rows of messages.

ghost use Rattle.riemann_msg.specs.Cleared.{AreCleared};

use crate::events::{NOW, Named, embed};
use crate::line::RowFault;
use crate::reading::readable;
use crate::shown::{put_events, put_miscount, shown};
use ev_types::{Blob, Event, Memory};
use riemann_msg::{
    Msg, MsgFault, SpentEvents, bits_of_ttl, msg_len, read_msg, read_msg_into, ttl_of_bits,
    write_msg,
};
use std::alloc::Global;
use std::fmt::Write;

/// Appends the message in one line: ok, error and query, and then each event after a bar; or why there is none.
fn put_read(line: &mut String, read: &Result<Msg, MsgFault>) -> Result<(), RowFault> {
    match read {
        Ok(msg) => {
            let (ok, error, asked) = (msg.ok, shown(&msg.error), asked(msg));
            write!(line, "{ok:?} {error} asks {asked}")?;
            put_events(line, msg.events.as_slice())
        }
        Err(fault) => {
            write!(line, "{fault}")?;
            Ok(())
        }
    }
}

fn asked(msg: &Msg) -> &str {
    match &msg.query {
        Some(query) => shown(&query.string),
        None => "nothing",
    }
}

/// Clears each event, so that the memory of all can be used again.
fn clear_all(alloc: Global, events: &mut [Event])
    ensures { AreCleared events.new }
{
    for event in events.iter_mut() {
        event.clear(alloc, 0);
    }
}

/// Events in whose memory copies of the named ones were.
fn spent_events(alloc: Global, named: &[Named]) -> Result<SpentEvents, Memory> {
    let mut events = Vec::new(alloc);
    for one in named {
        events.push(one.event.copy(alloc)?)?;
    }
    clear_all(alloc, &mut events);
    Ok(SpentEvents::of_cleared(alloc, events))
}

/// Appends the message that the bytes spell in one line, also where it is read into the memory of the named events, and
/// is another one then. The line is empty before.
pub fn message_answer(
    alloc: Global,
    body: &[u8],
    named: &[Named],
    line: &mut String,
) -> Result<(), RowFault> {
    put_read(line, &read_msg(alloc, body, NOW))?;
    let spent = spent_events(alloc, named)?;
    let mut again = String::new(alloc);
    put_read(&mut again, &read_msg_into(alloc, body, NOW, spent))?;
    if line.as_str() != again.as_str() {
        write!(line, ", and then {}", again.as_str())?;
    }
    Ok(())
}

/// Appends the message of the event that the bytes spell, in one line.
pub fn event_answer(
    alloc: Global,
    event: &[u8],
    named: &[Named],
    line: &mut String,
) -> Result<(), RowFault> {
    let mut body = Blob::fresh(alloc);
    embed(alloc, event, &mut body)?;
    message_answer(alloc, body.as_slice(), named, line)
}

/// What is written of the message that the bytes spell, which has the length that is counted.
pub fn written_answer(alloc: Global, body: &[u8]) -> Result<Blob, RowFault> {
    let msg = readable(read_msg(alloc, body, NOW))?;
    let mut out = Blob::fresh(alloc);
    write_msg(alloc, &msg, &mut out)?;
    put_miscount(alloc, &mut out, msg_len(&msg)?)?;
    Ok(out)
}

fn read_bits(digits: &str) -> Result<u32, RowFault> {
    readable(u32::from_str_radix(digits, 16))
}

/// Appends the ttl that the bits represent, or `None`.
pub fn ttl_answer(digits: &str, line: &mut String) -> Result<(), RowFault> {
    let ttl = ttl_of_bits(read_bits(digits)?);
    write!(line, "{ttl:?}")?;
    Ok(())
}

/// Appends the bits that are written of the ttl which the bits represent.
pub fn ttl_bits_answer(digits: &str, line: &mut String) -> Result<(), RowFault> {
    let ttl = ttl_of_bits(read_bits(digits)?).ok_or(RowFault::Unreadable)?;
    let bits = bits_of_ttl(ttl);
    write!(line, "{bits:08x}")?;
    Ok(())
}
