//! Sets that no configuration can spell, and the fold of nothing.

use crate::build::text;
use ev_types::{
    Attr, Attrs, Blob, Event, Events, Field, Fold, Item, Memory, Set, Sets, Tags, Text, Value,
};
use flow_streams::{apply_defaults, apply_fold, apply_sets};
use notice_sink::put_item;
use std::alloc::Global;

/// Appends an attribute of this key, with this value where it is not `-`.
fn push_attribute(alloc: Global, attributes: &mut Attrs, key: &str, value: &str) {
    if let Some(key) = text(alloc, key) {
        let value = text(alloc, value);
        let _ = attributes.push(alloc, Attr { key, value });
    }
}

/// Attributes of these keys, with these values where they are not `-`.
fn attributes(alloc: Global, rows: &[(&str, &str)]) -> Attrs {
    let mut attributes = Attrs::fresh(alloc);
    for row in rows {
        push_attribute(alloc, &mut attributes, row.0, row.1);
    }
    attributes
}

/// An event that holds its time and forms of a metric that are not numbers here.
fn bare_event(alloc: Global) -> Event {
    let mut event = Event::at(alloc, 5);
    event.time_micros = Some(5_000_001);
    event.raw_d = Some(9);
    event.raw_f = Some(7);
    event
}

/// The keys and values of the attributes of the full event.
const ATTRIBUTES: &[(&str, &str)] = &[("rack", "r7"), ("room", ""), ("rack", "r8"), ("bare", "-")];

/// An event that holds something in each field but the tags, and the attribute "rack" twice.
fn full_event(alloc: Global) -> Event {
    Event {
        host: text(alloc, "a"),
        service: text(alloc, "cpu"),
        state: text(alloc, "ok"),
        description: text(alloc, "fine"),
        tags: Tags::fresh(alloc),
        time: 5,
        time_micros: Some(5_000_001),
        ttl: Some(60),
        metric: Some(-3),
        raw_d: Some(9),
        raw_f: Some(7),
        attributes: attributes(alloc, ATTRIBUTES),
    }
}

/// A value in a row.
enum Row<'a> {
    Nil,
    Number(i64),
    Text(&'a str),
}

/// The value of the row. Where memory is out it is nil, and a comparison then fails.
fn value(alloc: Global, row: &Row) -> Value {
    match row {
        Row::Nil => Value::Nil,
        Row::Number(number) => Value::Number(*number),
        Row::Text(chars) => match text(alloc, chars) {
            Some(chars) => Value::Text(chars),
            None => Value::Nil,
        },
    }
}

/// The field that the name means, or none where memory is out.
fn field(alloc: Global, name: &str) -> Option<Field> {
    match text(alloc, name) {
        Some(name) => Field::named(name),
        None => None,
    }
}

/// Appends a set of the named field. It answers whether memory is left.
fn push_set(alloc: Global, sets: &mut Sets, name: &str, row: &Row) -> bool {
    match field(alloc, name) {
        Some(field) => {
            let value = value(alloc, row);
            sets.push(alloc, Set { field, value }).is_ok()
        }
        None => false,
    }
}

/// Appends the sets of the rows. It answers whether memory is left.
fn push_sets(alloc: Global, sets: &mut Sets, rows: &[(&str, Row)]) -> bool {
    for row in rows {
        if !push_set(alloc, sets, row.0, &row.1) {
            return false;
        }
    }
    true
}

/// Whether the time in microseconds and the raw metrics are as they were.
fn has_raws(event: &Event) -> bool {
    event.time_micros == Some(5_000_001) && event.raw_d == Some(9) && event.raw_f == Some(7)
}

/// Whether the item is written so in a notice.
fn is_written(alloc: Global, item: &Item, wanted: &str) -> bool {
    let mut out = Blob::fresh(alloc);
    let is_put = put_item(alloc, item, &mut out).is_ok();
    is_put && out.as_slice() == wanted.as_bytes()
}

/// Whether the event is written so in a notice, and its time in microseconds and raw metrics are as they were.
fn is_event(alloc: Global, event: Event, wanted: &str) -> bool {
    let has_raws = has_raws(&event);
    is_written(alloc, &Item::One(event), wanted) && has_raws
}

/// Whether the full event is so once the sets are made.
fn is_full_set(alloc: Global, sets: &Sets, wanted: &str) -> bool {
    match apply_sets(alloc, sets, full_event(alloc)) {
        Ok(event) => is_event(alloc, event, wanted),
        Err(Memory) => false,
    }
}

/// Whether the full event is so once the sets of the rows are made.
fn is_set(alloc: Global, rows: &[(&str, Row)], wanted: &str) -> bool {
    let mut sets = Sets::fresh(alloc);
    push_sets(alloc, &mut sets, rows) && is_full_set(alloc, &sets, wanted)
}

/// Fields that are set twice, and how the full event is then written.
const TWICE: &[(&str, Row<'static>)] = &[
    ("state", Row::Text("warning")),
    ("rack", Row::Nil),
    ("description", Row::Nil),
    ("host", Row::Text("")),
    ("room", Row::Text("r9")),
    ("state", Row::Text("critical")),
    ("rack", Row::Text("r10")),
];

const SET_TWICE: &str =
    "{host=\"\" service=\"cpu\" state=\"critical\" time=5 ttl=60 metric=-3 @\"bare\" @\"room\"=\"r9\" @\"rack\"=\"r10\"}";

/// Values that do not fit their fields, and how the full event is written.
const MISFITS: &[(&str, Row<'static>)] = &[
    ("ttl", Row::Number(-1)),
    ("ttl", Row::Number(16_777_217)),
    ("time", Row::Nil),
    ("host", Row::Number(1)),
    ("metric", Row::Text("1")),
];

const NOT_SET: &str =
    "{host=\"a\" service=\"cpu\" state=\"ok\" description=\"fine\" time=5 ttl=60 metric=-3 @\"rack\"=\"r7\" @\"room\"=\"\" @\"rack\"=\"r8\" @\"bare\"}";

/// Whether the event is so with the defaults.
fn is_filled(alloc: Global, sets: &Sets, event: Event, wanted: &str) -> bool {
    match apply_defaults(alloc, sets, event) {
        Ok(event) => is_event(alloc, event, wanted),
        Err(Memory) => false,
    }
}

/// Defaults, and how the full and the bare event are written with them.
const DEFAULTS: &[(&str, Row<'static>)] = &[
    ("host", Row::Text("b")),
    ("host", Row::Text("c")),
    ("state", Row::Nil),
    ("description", Row::Text("late")),
    ("rack", Row::Text("r1")),
    ("room", Row::Text("r2")),
    ("bare", Row::Text("r3")),
];

const FULL_FILLED: &str =
    "{host=\"a\" service=\"cpu\" state=\"ok\" description=\"fine\" time=5 ttl=60 metric=-3 @\"rack\"=\"r7\" @\"room\"=\"\" @\"rack\"=\"r8\" @\"bare\"=\"r3\"}";

const BARE_FILLED: &str =
    "{host=\"b\" description=\"late\" time=5 @\"rack\"=\"r1\" @\"room\"=\"r2\" @\"bare\"=\"r3\"}";

/// Whether the full and the bare event are so with the defaults.
fn are_filled(alloc: Global, sets: &Sets) -> bool {
    is_filled(alloc, sets, full_event(alloc), FULL_FILLED)
        && is_filled(alloc, sets, bare_event(alloc), BARE_FILLED)
}

/// Whether a field has two defaults.
fn are_defaults(alloc: Global) -> bool {
    let mut sets = Sets::fresh(alloc);
    push_sets(alloc, &mut sets, DEFAULTS) && are_filled(alloc, &sets)
}

/// Whether a count of no event makes no event.
fn is_nothing_folded(alloc: Global) -> bool {
    match apply_fold(alloc, Fold::Count, &Events::fresh(alloc)) {
        Ok(folded) => folded.is_none(),
        Err(Memory) => false,
    }
}

#[test]
fn fields_are_set_and_have_defaults_and_nothing_is_folded(rt: HostRuntime) {
    let alloc = rt.alloc();
    // A field is set twice, and what does not fit is not set.
    assert!(rt; is_set(alloc, TWICE, SET_TWICE));
    assert!(rt; is_set(alloc, MISFITS, NOT_SET));
    assert!(rt; are_defaults(alloc));
    assert!(rt; is_nothing_folded(alloc));
}
