//! Replies with events that are lent from where they lie.

ghost use Rattle.std.specs.Prelude.{◌≡◌, ◌^◌, ◌≤◌, ◌++◌, length, IfOk, OnErr, OnOk};
ghost use Rattle.list_laws.specs.Prefix.{IsPrefix};
ghost use Rattle.riemann_msg.specs.Reply.{events_lent, found};
ghost use Rattle.riemann_msg.specs.Spelling.{Counts, spelling, spelled, repeated, event_content};

use crate::len::{both, embedded, event_len, flag_len};
use crate::write::{put_event_field, put_flag};
use ev_types::{Blob, Event, Memory};
use std::alloc::Global;

/// How many bytes the spelling of a reply with these events has. `Memory`: they are 2^64 or more, which is more than a
/// `usize` can count.
pub fn found_len(events: &[&Event]) -> Result<usize, Memory>
    ensures ok { IfOk result (λ n. n ≡ length (spelling (found (events_lent events.now)))) }
    ensures err { OnErr result (2 ^ 64 ≤ length (spelling (found (events_lent events.now)))) }
{
    let ok = flag_len(Some(true));
    both(Ok(ok), lent_events_len(events))
}

/// How many bytes the events have, with their tags and lengths.
fn lent_events_len(events: &[&Event]) -> Result<usize, Memory>
    ensures { Counts result
        (length (spelled (repeated 6 event_content (events_lent events.now)))) }
{
    let mut len = Ok(0);
    for event in events {
        let field = embedded(event_len(event));
        len = both(len, field);
    }
    len
}

/// Appends the spelling of a reply with these events. If memory runs out, `out` still begins with what it had.
pub fn write_found(alloc: Global, events: &[&Event], out: &mut Blob) -> Result<(), Memory>
    ensures ok { OnOk result (out.new ≡ out.old ++ spelling (found (events_lent events.now))) }
    ensures err { OnErr result (IsPrefix out.old out.new) }
{
    put_flag(alloc, Some(true), out)?;
    put_lent_events(alloc, events, out)?;
    Ok(())
}

/// Appends the events.
fn put_lent_events(alloc: Global, events: &[&Event], out: &mut Blob) -> Result<(), Memory>
    ensures ok { OnOk result (out.new ≡ out.old
        ++ spelled (repeated 6 event_content (events_lent events.now))) }
    ensures err { OnErr result (IsPrefix out.old out.new) }
{
    for event in events {
        put_event_field(alloc, event, out)?;
    }
    Ok(())
}
