use packed_event::{Places, Span, places_of};

/// An event that holds nothing but its time.
const BARE: Places = Places {
    host: None,
    service: None,
    time: 1,
    ttl: None,
    ends_key: false,
    tags: 2,
};

/// Bytes, each with the places of the parts if it is an event as this server writes it.
const ROWS: &[(&[u8], Option<Places>)] = &[
    (b"\x08\x01", Some(BARE)),
    (
        b"\x08\xff\xff\xff\xff\xff\xff\xff\xff\xff\x01",
        Some(Places {
            host: None,
            service: None,
            time: -1,
            ttl: None,
            ends_key: false,
            tags: 11,
        }),
    ),
    (
        b"\x08\x80\x01\x12\x07expired",
        Some(Places {
            host: None,
            service: None,
            time: 128,
            ttl: None,
            ends_key: true,
            tags: 12,
        }),
    ),
    (
        b"\x08\x01\x1a\x02bb\x22\x01a\x45\x00\x00\x70\x42",
        Some(Places {
            host: Some(Span { start: 8, len: 1 }),
            service: Some(Span { start: 4, len: 2 }),
            time: 1,
            ttl: Some(60),
            ends_key: false,
            tags: 9,
        }),
    ),
    (
        b"\x08\x01\x12\x00\x22\x02\xc3\xa9\x45\x00\x00\x00\x00",
        Some(Places {
            host: Some(Span { start: 6, len: 2 }),
            service: None,
            time: 1,
            ttl: Some(0),
            ends_key: false,
            tags: 8,
        }),
    ),
    // A description, two tags, an attribute without a value and one with, 1.5 seconds, -3, and the bits of two numbers.
    (
        b"\x08\x01\x2a\x01d\x3a\x01t\x3a\x00\x4a\x03\x0a\x01k\x4a\x06\x0a\x01k\x12\x01v\x50\xe0\xc6\x5b\x68\x05\x71\x01\x02\x03\x04\x05\x06\x07\x08\x7d\x01\x02\x03\x04",
        Some(Places { tags: 5, ..BARE }),
    ),
    // Nothing, and no time.
    (b"", None),
    (b"\x12\x01a", None),
    // A service after the host, and a host twice.
    (b"\x08\x01\x22\x01a\x1a\x01b", None),
    (b"\x08\x01\x22\x01a\x22\x01a", None),
    // Varints that are longer than they need be, or too great.
    (b"\x08\x81\x00", None),
    (b"\x08\x01\x12\x81\x00a", None),
    (b"\x88\x00\x01", None),
    (b"\x08\xff\xff\xff\xff\xff\xff\xff\xff\xff\x02", None),
    (b"\x08\xff\xff\xff\xff\xff\xff\xff\xff\xff\x81\x00", None),
    (b"\x08\x81", None),
    // A field that is not known, and one of another type.
    (b"\x08\x01\x30\x00", None),
    (b"\x08\x01\x10\x00", None),
    // A text that is cut, and one that is not UTF-8.
    (b"\x08\x01\x12\x02a", None),
    (b"\x08\x01\x12\x01\xff", None),
    // The negative zero, half a second, and a ttl that is cut.
    (b"\x08\x01\x45\x00\x00\x00\x80", None),
    (b"\x08\x01\x45\x00\x00\x00\x3f", None),
    (b"\x08\x01\x45\x00\x00\x70", None),
    // An attribute without a key, one with its value first, and one with another field.
    (b"\x08\x01\x4a\x00", None),
    (b"\x08\x01\x4a\x06\x12\x01v\x0a\x01k", None),
    (b"\x08\x01\x4a\x05\x0a\x01k\x18\x00", None),
    // Microseconds that lie in another second.
    (b"\x08\x02\x50\xe0\xc6\x5b", None),
    // Fields after the last one.
    (b"\x08\x01\x7d\x01\x02\x03\x04\x00", None),
];

#[test]
fn places_are_those_of_the_parts_if_bytes_are_as_written(rt: HostRuntime) {
    for (number, (bytes, places)) in ROWS.iter().enumerate() {
        let same = places_of(bytes) == *places;
        assert!(rt; same, "row {number}");
    }
}
