//! Whether an event is read again as it is once it is written.

ghost use Rattle.std.specs.Prelude.{◌≡◌, ◌↔◌, ◌^◌, ◌<◌, FitsSigned, IfSome, IsTrue};
ghost use Rattle.std.specs.Int.{w64};
ghost use Rattle.std.specs.List.{AllByRecursion};
ghost use Rattle.std.specs.Str.{IsUtf8};
ghost use Rattle.riemann_msg.specs.ReadBack.{IsWellFormedAttribute, IsWellFormedEvent};
ghost use Rattle.riemann_msg.specs.Ttl.{IsSpellableTtl};
ghost use Rattle.riemann_msg.specs.Value.{second_of};
ghost use Rattle.packed_event.specs.Kept.{HasTypes};

use ev_types::{Attr, Event, Text};
use riemann_msg::{bits_of_ttl, ttl_of_bits};

/// Whether an event is read again as it is: bits represent its ttl, and its time is that of its microseconds. The rest
/// of it is well-formed by its types.
pub(crate) fn is_well_formed(event: &Event) -> bool
    ensures { IsTrue result ↔ IsWellFormedEvent event.now }
{
    has_types(event);
    is_spellable_ttl(event.ttl) && is_timely(event)
}

/// Whether bits represent the ttl, if there is one.
fn is_spellable_ttl(ttl: Option<u32>) -> bool
    ensures { IsTrue result ↔ IfSome ttl IsSpellableTtl }
{
    match ttl {
        Some(ttl) => match ttl_of_bits(bits_of_ttl(ttl)) {
            Some(read) => read == ttl,
            None => false,
        },
        None => true,
    }
}

/// Whether the time of the event, in seconds, is that of its microseconds, if it has any.
fn is_timely(event: &Event) -> bool
    ensures { IsTrue result ↔ IfSome event.now.time_micros
        (λ micros. event.now.time ≡ second_of micros) }
{
    match event.time_micros {
        Some(micros) => micros.div_euclid(1_000_000) == event.time,
        None => true,
    }
}

// Each of the following says of values what their types say of each. None of them does anything.

/// The texts of an event are UTF-8, and its numbers are within their types.
fn has_types(event: &Event)
    ensures { HasTypes event.now }
{
    text_is_utf8(&event.host);
    text_is_utf8(&event.service);
    text_is_utf8(&event.state);
    text_is_utf8(&event.description);
    tags_are_utf8(event.tags.as_slice());
    attributes_are_utf8(event.attributes.as_slice());
    time_fits(event.time);
    number_fits(event.time_micros);
    number_fits(event.metric);
    double_fits(event.raw_d);
    float_fits(event.raw_f);
}

fn time_fits(time: i64)
    ensures { FitsSigned w64 time }
{}

fn number_fits(number: Option<i64>)
    ensures { IfSome number (FitsSigned w64) }
{}

fn double_fits(bits: Option<u64>)
    ensures { IfSome bits (λ bits. bits < 2 ^ 64) }
{}

fn float_fits(bits: Option<u32>)
    ensures { IfSome bits (λ bits. bits < 2 ^ 32) }
{}

fn text_is_utf8(text: &Option<Text>)
    ensures { IfSome text.now IsUtf8 }
{
    if let Some(text) = text {
        text.as_bytes();
    }
}

fn tags_are_utf8(tags: &[Text])
    ensures { AllByRecursion IsUtf8 tags.now }
{
    for tag in tags {
        tag.as_bytes();
    }
}

fn attributes_are_utf8(attributes: &[Attr])
    ensures { AllByRecursion IsWellFormedAttribute attributes.now }
{
    for attribute in attributes {
        attribute.key.as_bytes();
        text_is_utf8(&attribute.value);
    }
}
