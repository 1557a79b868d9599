use crate::keys::{are_ordered, is_keyed};
use crate::lent::are_unpacked;
use crate::rules::{QUERIES, answered};
use ev_types::{Blob, Event, Field, Memory, Value, holds_value};
use packed_event::{PackFault, PackedEvent, PackedRef};
use std::alloc::Global;

/// An event with each field: the state "ok", the service "bb", the host "a", a description, two tags, 60 seconds, an
/// attribute without a value and one with, 1.5 seconds, -3, and the bits of two numbers.
pub(crate) const FULL: &[u8] =
    b"\x08\x01\x12\x02ok\x1a\x02bb\x22\x01a\x2a\x01d\x3a\x01t\x3a\x00\x45\x00\x00\x70\x42\x4a\x03\x0a\x01k\x4a\x06\x0a\x01k\x12\x01v\x50\xe0\xc6\x5b\x68\x05\x71\x01\x02\x03\x04\x05\x06\x07\x08\x7d\x01\x02\x03\x04";

/// An event that ends that of its service.
pub(crate) const LAST: &[u8] = b"\x08\x80\x01\x12\x07expired\x1a\x01s";

/// The event of these bytes, if they are as this server writes them. If not, it answers out of memory too.
fn packed(alloc: Global, bytes: &[u8]) -> Result<PackedEvent, Memory> {
    match PackedRef::of(bytes) {
        Some(event) => PackedEvent::copy_of(alloc, &event),
        None => Err(Memory),
    }
}

/// Whether there is a text, and it is this one.
pub(crate) fn is_text(text: Option<&str>, wanted: &str) -> bool {
    match text {
        Some(text) => text == wanted,
        None => false,
    }
}

/// Whether the parts are those of [`FULL`].
fn are_of_full(event: &PackedEvent) -> bool {
    is_text(event.host(), "a")
        && is_text(event.service(), "bb")
        && event.time() == 1
        && matches!(event.ttl(), Some(60))
        && !event.ends_key()
}

/// Whether the metric is that of [`FULL`].
fn has_metric(event: &PackedEvent) -> bool {
    holds_value(event, &Field::Metric, &Value::Number(-3))
}

/// Whether the event expires after the second 61.
fn expires_after(event: &PackedEvent) -> bool {
    !event.is_expired(61) && event.is_expired(62)
}

/// Whether the parts are those of [`LAST`].
fn are_of_last(event: &PackedEvent) -> bool {
    event.host().is_none() && event.ttl().is_none() && event.ends_key()
}

/// Whether the event is packed as these bytes, and is then the same as the other one, if there is one.
pub(crate) fn is_packed_as(
    alloc: Global,
    event: &Event,
    bytes: &[u8],
    other: Option<&PackedEvent>,
) -> bool {
    match PackedEvent::pack(alloc, event) {
        Ok(packed) => is_same(&packed, bytes, other),
        Err(_) => false,
    }
}

/// Whether the event has these bytes, and is the same as the other one, if there is one.
fn is_same(event: &PackedEvent, bytes: &[u8], other: Option<&PackedEvent>) -> bool {
    let same = match other {
        Some(other) => event.is_same(other),
        None => true,
    };
    same && event.bytes() == bytes
}

/// Whether the reply with the event of [`FULL`] begins as that is written, and is as long as it is counted.
fn is_replied(alloc: Global, event: &PackedEvent) -> bool {
    let mut reply = Blob::fresh(alloc);
    let is_put = event.put_into(alloc, &mut reply).is_ok();
    let len = event.reply_len();
    is_put
        && reply.len() == len
        && len == FULL.len() + 2
        && reply.as_slice().starts_with(b"\x32\x3b\x08\x01")
}

#[test]
fn an_event_is_its_bytes(rt: HostRuntime) -> Result<(), Memory> {
    let full = packed(rt.alloc(), FULL)?;
    let last = packed(rt.alloc(), LAST)?;
    assert!(rt; are_of_full(&full), "parts of FULL");
    assert!(rt; expires_after(&full), "second of expiry");
    assert!(rt; are_of_last(&last), "parts of LAST");
    assert!(rt; !last.is_same(&full), "two events");
    assert!(rt; has_metric(&full), "metric");
    assert!(rt; are_ordered(&full, &last), "order of the keys");
    assert!(rt; is_replied(rt.alloc(), &full), "reply");
    let answered = answered(rt.alloc(), &full, &last);
    assert!(rt; answered == QUERIES.len(), "query {answered}");
    Ok(())
}

#[test]
fn an_event_is_unpacked_and_packed_as_it_was(rt: HostRuntime) -> Result<(), Memory> {
    let full = packed(rt.alloc(), FULL)?;
    let event = full.unpack(rt.alloc())?;
    assert!(rt; is_keyed(&full, &event), "key");
    assert!(rt;
        is_packed_as(rt.alloc(), &event, FULL, Some(&full)),
        "bytes"
    );
    Ok(())
}

/// Whether the other event, which holds nothing but second 1 as its time, is packed in the block of this one.
fn is_packed_in(alloc: Global, event: &mut PackedEvent, bare: &Event) -> bool {
    event.pack_again(alloc, bare).is_ok() && event.bytes() == b"\x08\x01".as_slice()
}

/// The bytes of events that are copied into one after another, each with its service.
const COPIES: &[(&[u8], &str)] = &[(LAST, "s"), (FULL, "bb")];

/// Whether the event has these bytes and this service.
fn is_copy(event: &PackedEvent, bytes: &[u8], service: &str) -> bool {
    event.bytes() == bytes && event.as_ref().bytes() == bytes && is_text(event.service(), service)
}

/// Whether the event is then that of these bytes, and has this service.
fn is_copied(event: &mut PackedEvent, bytes: &[u8], service: &str) -> bool {
    match PackedRef::of(bytes) {
        Some(other) => event.become_copy(&other).is_ok() && is_copy(event, bytes, service),
        None => false,
    }
}

/// Whether the event is that of each of the rows in turn.
fn are_copied(event: &mut PackedEvent) -> bool {
    for (bytes, service) in COPIES {
        if !is_copied(event, bytes, service) {
            return false;
        }
    }
    true
}

/// Whether no bytes represent the event.
fn is_unspellable(alloc: Global, event: &Event) -> bool {
    matches!(PackedEvent::pack(alloc, event), Err(PackFault::Unspellable))
}

/// The microseconds and the ttl of an event at second 1, each with whether no bytes represent it.
const REFUSED: &[(Option<i64>, Option<u32>, bool)] = &[
    (Some(1_999_999), None, false),
    (Some(2_000_000), None, true),
    (None, Some(16_777_217), true),
    (None, Some(2_147_483_648), true),
];

/// Whether each row says what is refused of the event, which is at second 1, with these microseconds and this ttl.
fn are_refused(alloc: Global, event: &mut Event) -> bool {
    for (time_micros, ttl, refused) in REFUSED {
        event.time_micros = *time_micros;
        event.ttl = *ttl;
        if is_unspellable(alloc, event) != *refused {
            return false;
        }
    }
    true
}

/// After the copies the packed event is that of [`FULL`] again.
#[test]
fn the_blocks_of_events_are_used_again(rt: HostRuntime) -> Result<(), Memory> {
    let mut full = packed(rt.alloc(), FULL)?;
    assert!(rt; are_copied(&mut full), "copies");
    let mut event = Event::at(rt.alloc(), 0);
    event.time = 1;
    assert!(rt;
        is_packed_in(rt.alloc(), &mut full, &event),
        "packed in the block of another"
    );
    assert!(rt;
        are_refused(rt.alloc(), &mut event),
        "events that no bytes represent"
    );
    event.time = 5;
    assert!(rt;
        are_unpacked(rt.alloc(), &mut event),
        "unpacked in the block of another"
    );
    Ok(())
}
