//! Whether items are equal.

ghost use Rattle.std.specs.Prelude.{◌≡◌, ◌↔◌, IsTrue};
ghost use Rattle.std.specs.Cmp.Lexicographic.{pointwise};
ghost use Rattle.stream_tests.specs.Same.{same_texts, same_times, same_metrics, same_attribute, same_event, same_item};

use ev_types::{Attr, Event, Item};

/// Whether the two items are equal, with every field of their events.
pub(crate) fn same_item(a: &Item, b: &Item) -> bool
    ensures test { result ≡ same_item a.now b.now }
    ensures same { IsTrue result ↔ (a.now ≡ b.now) }
{
    match (a, b) {
        (Item::One(a), Item::One(b)) => same_event(a, b),
        (Item::Many(a), Item::Many(b)) => same_events(a.as_slice(), b.as_slice()),
        _ => false,
    }
}

fn same_events(a: &[Event], b: &[Event]) -> bool
    ensures { result ≡ pointwise same_event a.now b.now }
{
    let mut left = a;
    let mut right = b;
    'events: while let Some((event, rest)) = left.split_first() {
        let Some((other, later)) = right.split_first() else {
            return false;
        };
        if !same_event(event, other) {
            return false;
        }
        left = rest;
        right = later;
    }
    right.is_empty()
}

fn same_event(a: &Event, b: &Event) -> bool
    ensures { result ≡ same_event a.now b.now }
{
    same_texts(a, b)
        && same_times(a, b)
        && same_metrics(a, b)
        && a.tags.as_slice() == b.tags.as_slice()
        && same_attributes(a.attributes.as_slice(), b.attributes.as_slice())
}

fn same_texts(a: &Event, b: &Event) -> bool
    ensures { result ≡ same_texts a.now b.now }
{
    a.host == b.host
        && a.service == b.service
        && a.state == b.state
        && a.description == b.description
}

fn same_times(a: &Event, b: &Event) -> bool
    ensures { result ≡ same_times a.now b.now }
{
    a.time == b.time && a.time_micros == b.time_micros && a.ttl == b.ttl
}

fn same_metrics(a: &Event, b: &Event) -> bool
    ensures { result ≡ same_metrics a.now b.now }
{
    a.metric == b.metric && a.raw_d == b.raw_d && a.raw_f == b.raw_f
}

fn same_attributes(a: &[Attr], b: &[Attr]) -> bool
    ensures { result ≡ pointwise same_attribute a.now b.now }
{
    let mut left = a;
    let mut right = b;
    'attributes: while let Some((attribute, rest)) = left.split_first() {
        let Some((other, later)) = right.split_first() else {
            return false;
        };
        if attribute.key != other.key || attribute.value != other.value {
            return false;
        }
        left = rest;
        right = later;
    }
    right.is_empty()
}
