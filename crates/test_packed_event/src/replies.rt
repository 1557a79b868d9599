ghost use Rattle.std.specs.Prelude.{◌≡◌, IfOk};
ghost use Rattle.pred_eval.specs.Tree.{Always};

use ev_types::{Blob, Event, Memory};
use live_index::PackedIndex;
use packed_event::{PackedEvent, PackedRef};
use pred_eval::{Pred, RegexPatterns, Rule};
use std::alloc::Global;
use step_count::{NoLedger, Steps};
use stored_event::{Stored, found_len, write_lent};

/// An event's bytes, whether it is written as an event that owns its parts, and the reply with all events after it.
type Row = (&'static [u8], bool, &'static [u8]);

/// The events are of the host "a" and the services "s" and "t".
const ROWS: &[Row] = &[
    (
        b"\x08\x01\x1a\x01s\x22\x01a\x68\x05",
        false,
        b"\x10\x01\x32\x0a\x08\x01\x1a\x01s\x22\x01a\x68\x05",
    ),
    // A longer one in its place, and another service.
    (
        b"\x08\x02\x1a\x01s\x22\x01a\x2a\x02bc\x68\x07",
        false,
        b"\x10\x01\x32\x0e\x08\x02\x1a\x01s\x22\x01a\x2a\x02bc\x68\x07",
    ),
    (
        b"\x08\x02\x1a\x01t\x22\x01a",
        false,
        b"\x10\x01\x32\x0e\x08\x02\x1a\x01s\x22\x01a\x2a\x02bc\x68\x07\x32\x08\x08\x02\x1a\x01t\x22\x01a",
    ),
    // One that owns its parts takes the place of a packed one, and of one that owns its parts.
    (
        b"\x08\x03\x1a\x01s\x22\x01a",
        true,
        b"\x10\x01\x32\x08\x08\x03\x1a\x01s\x22\x01a\x32\x08\x08\x02\x1a\x01t\x22\x01a",
    ),
    (
        b"\x08\x03\x1a\x01s\x22\x01a\x68\x09",
        true,
        b"\x10\x01\x32\x0a\x08\x03\x1a\x01s\x22\x01a\x68\x09\x32\x08\x08\x02\x1a\x01t\x22\x01a",
    ),
    // A packed one takes the place of one that owns its parts.
    (
        b"\x08\x04\x1a\x01s\x22\x01a",
        false,
        b"\x10\x01\x32\x08\x08\x04\x1a\x01s\x22\x01a\x32\x08\x08\x02\x1a\x01t\x22\x01a",
    ),
    // One whose state is "expired" only ends the one of its host and service.
    (
        b"\x08\x05\x12\x07expired\x1a\x01s\x22\x01a",
        false,
        b"\x10\x01\x32\x08\x08\x02\x1a\x01t\x22\x01a",
    ),
    (
        b"\x08\x05\x12\x07expired\x1a\x01t\x22\x01a",
        true,
        b"\x10\x01",
    ),
];

/// Writes the event of the bytes.
fn write(alloc: Global, index: &mut PackedIndex, bytes: &[u8], owned: bool) -> Result<(), Memory> {
    match PackedRef::of(bytes) {
        Some(event) if owned => write_unpacked(alloc, index, &event),
        Some(event) => index.put_packed(alloc, &event),
        None => Err(Memory),
    }
}

/// Writes the event as one that owns its parts.
fn write_unpacked(
    alloc: Global,
    index: &mut PackedIndex,
    event: &PackedRef<'_>,
) -> Result<(), Memory> {
    match unpacked(alloc, event) {
        Ok(event) => index.write(alloc, event),
        Err(Memory) => Err(Memory),
    }
}

/// The event, which owns its parts.
fn unpacked(alloc: Global, event: &PackedRef<'_>) -> Result<Event, Memory> {
    match PackedEvent::copy_of(alloc, event) {
        Ok(event) => event.unpack(alloc),
        Err(Memory) => Err(Memory),
    }
}

/// The predicate that every event meets.
fn always(alloc: Global) -> Result<Pred, Memory>
    ensures { IfOk result (λ pred. pred ≡ Always) }
{
    match Pred::build(alloc, Rule::Always, &mut RegexPatterns::fresh()) {
        Ok(pred) => Ok(pred),
        Err(_) => Err(Memory),
    }
}

/// Whether the length is this one.
fn is_len(len: Result<usize, Memory>, wanted: usize) -> bool {
    match len {
        Ok(len) => len == wanted,
        Err(Memory) => false,
    }
}

/// Whether the reply with these events is this one, and its length is known.
fn is_reply_of(alloc: Global, events: &[&Stored<PackedEvent>], wanted: &[u8]) -> bool {
    let mut reply = Blob::fresh(alloc);
    let is_written = write_lent(alloc, events, &mut reply).is_ok();
    is_written && reply.as_slice() == wanted && is_len(found_len(events), wanted.len())
}

/// Whether the reply with the events that the predicate finds is this one.
fn is_found(alloc: Global, index: &PackedIndex, pred: &mut Pred, wanted: &[u8]) -> bool {
    let mut found = Vec::new(alloc);
    match index.find(alloc, pred, &mut found, &mut Steps::fresh(NoLedger)) {
        Ok(()) => is_reply_of(alloc, found.as_slice(), wanted),
        Err(Memory) => false,
    }
}

/// Whether the reply with all events is this one, and its length is known.
fn is_replied(alloc: Global, index: &mut PackedIndex, pred: &mut Pred, wanted: &[u8]) -> bool
    requires { pred.old ≡ Always }
{
    let len = index.all_len(alloc, pred, &mut Steps::fresh(NoLedger));
    is_len(len, wanted.len()) && is_found(alloc, index, pred, wanted)
}

/// Whether the reply with all events is this one.
fn gives(alloc: Global, index: &mut PackedIndex, wanted: &[u8]) -> bool {
    match always(alloc) {
        Ok(mut pred) => is_replied(alloc, index, &mut pred, wanted),
        Err(Memory) => false,
    }
}

/// Whether the reply is as wanted after each event.
fn are_replied(alloc: Global, index: &mut PackedIndex) -> bool {
    for row in ROWS {
        let is_written = write(alloc, index, row.0, row.1).is_ok();
        if !is_written || !gives(alloc, index, row.2) {
            return false;
        }
    }
    true
}

#[test]
fn events_are_replied_as_they_were_written(rt: HostRuntime) {
    let mut index = PackedIndex::fresh(rt.alloc());
    let replied = are_replied(rt.alloc(), &mut index);
    assert!(rt; replied);
}
