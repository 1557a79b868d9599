//! Replies with events that are lent from an index.

ghost use Rattle.std.specs.Prelude.{◌≡◌, ◌+◌, ◌^◌, ◌≤◌, ◌++◌, length, IfOk, OnErr, OnOk};
ghost use Rattle.list_laws.specs.Prefix.{IsPrefix};
ghost use Rattle.riemann_msg.specs.Reply.{events_lent, found};
ghost use Rattle.riemann_msg.specs.Spelling.{event_content, repeated, spelled, spelling};

use crate::form::EventForm;
use crate::measured::EMPTY_REPLY;
use crate::stored::Stored;
use ev_types::{Blob, Memory};
use riemann_msg::write_found;
use std::alloc::Global;

/// How many bytes the spelling of a reply with these events has. `Memory`: they are 2^64 or more, which is more than a
/// `usize` can count.
pub fn found_len<P: EventForm>(events: &[&Stored<P>]) -> Result<usize, Memory>
    ensures ok { IfOk result (λ n. n ≡ length (spelling (found (events_lent events.now)))) }
    ensures err { OnErr result (2 ^ 64 ≤ length (spelling (found (events_lent events.now)))) }
{
    let mut len = EMPTY_REPLY;
    for event in events {
        len = sum(len, event.reply_len()?)?;
    }
    Ok(len)
}

/// Appends the spelling of a reply with these events. If memory runs out, `out` still begins with what it had.
pub fn write_lent<P: EventForm>(
    alloc: Global,
    events: &[&Stored<P>],
    out: &mut Blob,
) -> Result<(), Memory>
    ensures ok { OnOk result (out.new ≡ out.old ++ spelling (found (events_lent events.now))) }
    ensures err { OnErr result (IsPrefix out.old out.new) }
{
    write_found(alloc, &[], out)?;
    put_events(alloc, events, out)?;
    Ok(())
}

/// Appends the events, as a reply has them.
fn put_events<P: EventForm>(
    alloc: Global,
    events: &[&Stored<P>],
    out: &mut Blob,
) -> Result<(), Memory>
    ensures ok { OnOk result (out.new ≡ out.old
        ++ spelled (repeated 6 event_content (events_lent events.now))) }
    ensures err { OnErr result (IsPrefix out.old out.new) }
{
    let mut reply = Blob::fresh(alloc);
    for event in events {
        event.put_into(alloc, &mut reply, out)?;
    }
    Ok(())
}

fn sum(a: usize, b: usize) -> Result<usize, Memory>
    ensures ok { IfOk result (λ n. n ≡ a + b) }
    ensures err { OnErr result (2 ^ 64 ≤ a + b) }
{
    a.checked_add(b).ok_or(Memory)
}
