use ev_types::Memory;
use packed_event::PackedRef;
use packed_msg::{plain_event, plain_events};
use std::alloc::Global;

/// Messages, each with the times of its events if it is nothing but events that are spelled as this server writes them.
const ROWS: &[(&[u8], Option<&[i64]>)] = &[
    (b"", Some(&[])),
    (b"\x32\x02\x08\x01", Some(&[1])),
    (b"\x32\x07\x08\x05\x1a\x03abc", Some(&[5])),
    (
        b"\x32\x02\x08\x03\x32\x05\x08\x02\x22\x01a\x32\x02\x08\x01",
        Some(&[3, 2, 1]),
    ),
    // The tag and the length in more bytes than they need.
    (b"\xb2\x00\x82\x00\x08\x01", Some(&[1])),
    // An event without a time, and one whose host is before its service.
    (b"\x32\x03\x22\x01a", None),
    (b"\x32\x02\x08\x01\x32\x08\x08\x01\x22\x01a\x1a\x01b", None),
    // Other fields: a flag, an error, a state, a query and one that is not known.
    (b"\x10\x01\x32\x02\x08\x01", None),
    (b"\x32\x02\x08\x01\x1a\x01e", None),
    (b"\x22\x02\x08\x01", None),
    (b"\x32\x02\x08\x01\x2a\x03\x0a\x01q", None),
    (b"\x32\x02\x08\x01\x38\x00", None),
    // The field of an event with a number in it.
    (b"\x30\x01", None),
    // Bytes after the last event, and an event that is cut.
    (b"\x32\x02\x08\x01\x00", None),
    (b"\x32\x03\x08\x01", None),
];

/// Whether the message has events of these times.
fn has_times(alloc: Global, message: &[u8], times: Option<&[i64]>) -> bool {
    match plain_events(alloc, message) {
        Ok(Some(events)) => is_timed_so(&events, times),
        Ok(None) => times.is_none(),
        Err(Memory) => false,
    }
}

/// Whether there are times, and they are those of the events.
fn is_timed_so(events: &[PackedRef<'_>], times: Option<&[i64]>) -> bool {
    match times {
        Some(times) => is_timed(events, times),
        None => false,
    }
}

/// Whether these are the times of the events.
fn is_timed(events: &[PackedRef<'_>], times: &[i64]) -> bool {
    events.len() == times.len()
        && events
            .iter()
            .zip(times)
            .all(|(event, time)| event.time() == *time)
}

/// Whether this is the only one of the times.
fn is_time(time: i64, times: Option<&[i64]>) -> bool {
    match times {
        Some([only]) => *only == time,
        _ => false,
    }
}

/// Whether the message is found to be one event exactly if it has one time.
fn has_time(message: &[u8], times: Option<&[i64]>) -> bool {
    match plain_event(message) {
        Some(event) => is_time(event.time(), times),
        None => !matches!(times, Some([_])),
    }
}

#[test]
fn events_are_those_of_the_message_and_one_is_found_alone(rt: HostRuntime) {
    for (number, (message, times)) in ROWS.iter().enumerate() {
        let same = has_times(rt.alloc(), message, *times);
        assert!(rt; same, "row {number}");
        let alone = has_time(message, *times);
        assert!(rt; alone, "row {number} alone");
    }
}
