ghost use Rattle.std.specs.Prelude.{◌≡◌, ◌++◌, ◌∷◌, [], map, codes, decimal, OnOk, OnErr};
ghost use Rattle.std.specs.Fmt.{signed_decimal};
ghost use Rattle.std.specs.List.{join_with_byte};
ghost use Rattle.notice_sink.specs.Joining.{ended, led};
ghost use Rattle.notice_sink.specs.Lines.{attribute_text, event_text, first_parts, item_text, last_parts, metric_part, tags_part, text_part, ttl_part, value_text};
ghost use Rattle.list_laws.specs.Prefix.{IsPrefix};
ghost use Rattle.notice_sink.specs.Quoting.{quoted};

use crate::quoting::put_quoted;
use ev_types::{Attr, Blob, Event, Item, Memory, Text};
use itoa::Buffer;
use std::alloc::Global;

/// Appends the item. An event is `{`, its present parts with single spaces between them, and `}`. The parts are, in
/// this order:
/// - `host=`, `service=`, `state=` and `description=`, each with the quoted text;
/// - `time=`, `ttl=` and `metric=`, each with a decimal number, which is in seconds for the time and the ttl;
/// - `tags=[`, the quoted tags with single spaces between them, and `]`, where there are any;
/// - for each attribute `@`, its quoted key, and `=` and its quoted value where it has one.
///
/// The time in microseconds and the raw metrics are left out. A vector is `[`, its events with single spaces between
/// them, and `]`. After `Memory`, `out` begins with what it had.
pub fn put_item(alloc: Global, item: &Item, out: &mut Blob) -> Result<(), Memory>
    ensures ok { OnOk result (out.new ≡ out.old ++ item_text item.now) }
    ensures err { OnErr result (IsPrefix out.old out.new) }
{
    match item {
        Item::One(event) => put_event(alloc, event, out)?,
        Item::Many(events) => put_vector(alloc, events.as_slice(), out)?,
    }
    Ok(())
}

fn put_vector(alloc: Global, events: &[Event], out: &mut Blob) -> Result<(), Memory>
    ensures ok { OnOk result (out.new ≡ out.old
        ++ (91 ∷ (join_with_byte 32 (map event_text events.now) ++ 93 ∷ []))) }
    ensures err { OnErr result (IsPrefix out.old out.new) }
{
    out.push(alloc, b'[')?;
    put_events(alloc, events, out)?;
    out.push(alloc, b']')
}

/// Appends the events with single spaces between them.
#[tactic(auto, using(crate::proofs::JoiningLemmas::events_written))]
fn put_events(alloc: Global, events: &[Event], out: &mut Blob) -> Result<(), Memory>
    ensures ok { OnOk result (out.new ≡ out.old
        ++ join_with_byte 32 (map event_text events.now)) }
    ensures err { OnErr result (IsPrefix out.old out.new) }
{
    let Some((first, rest)) = events.split_first() else {
        return Ok(());
    };
    put_event(alloc, first, out)?;
    put_more_events(alloc, rest, out)
}

/// Appends each event after a space.
#[tactic(auto, using(crate::proofs::JoiningLemmas::events_step, crate::proofs::JoiningLemmas::events_all))]
fn put_more_events(alloc: Global, events: &[Event], out: &mut Blob) -> Result<(), Memory>
    ensures ok { OnOk result (out.new ≡ out.old ++ led (map event_text events.now)) }
    ensures err { OnErr result (IsPrefix out.old out.new) }
{
    for event in events {
        out.push(alloc, b' ')?;
        put_event(alloc, event, out)?;
    }
    Ok(())
}

#[tactic(auto, using(crate::proofs::JoiningLemmas::event_written))]
fn put_event(alloc: Global, event: &Event, out: &mut Blob) -> Result<(), Memory>
    ensures ok { OnOk result (out.new ≡ out.old ++ event_text event.now) }
    ensures err { OnErr result (IsPrefix out.old out.new) }
{
    out.push(alloc, b'{')?;
    put_first_parts(alloc, event, out)?;
    put_number(alloc, b"time=", event.time, out)?;
    put_last_parts(alloc, event, out)?;
    out.push(alloc, b'}')
}

/// Appends the fields before the time, each with a space after it.
#[tactic(auto, using(crate::proofs::JoiningLemmas::ended_four))]
fn put_first_parts(alloc: Global, event: &Event, out: &mut Blob) -> Result<(), Memory>
    ensures ok { OnOk result (out.new ≡ out.old ++ ended (first_parts event.now)) }
    ensures err { OnErr result (IsPrefix out.old out.new) }
{
    put_text(alloc, b"host=", &event.host, out)?;
    put_text(alloc, b"service=", &event.service, out)?;
    put_text(alloc, b"state=", &event.state, out)?;
    put_text(alloc, b"description=", &event.description, out)
}

/// Appends a field that may be absent, with a space after it.
#[tactic(auto, using(crate::proofs::JoiningLemmas::text_written))]
fn put_text(alloc: Global, name: &[u8], text: &Option<Text>, out: &mut Blob) -> Result<(), Memory>
    ensures ok { OnOk result (out.new ≡ out.old ++ ended (text_part name.now text.now)) }
    ensures err { OnErr result (IsPrefix out.old out.new) }
{
    let Some(text) = text else {
        return Ok(());
    };
    out.append(alloc, name)?;
    put_quoted(alloc, text, out)?;
    out.push(alloc, b' ')
}

/// Appends a number after its name.
fn put_number(alloc: Global, name: &[u8], number: i64, out: &mut Blob) -> Result<(), Memory>
    ensures ok { OnOk result (out.new ≡ out.old ++ (name.now ++ signed_decimal number)) }
    ensures err { OnErr result (IsPrefix out.old out.new) }
{
    out.append(alloc, name)?;
    let mut digits = Buffer::new();
    out.append(alloc, digits.format(number).as_bytes())
}

/// Appends the fields after the time, each with a space before it.
#[tactic(auto, using(crate::proofs::JoiningLemmas::led_four))]
fn put_last_parts(alloc: Global, event: &Event, out: &mut Blob) -> Result<(), Memory>
    ensures ok { OnOk result (out.new ≡ out.old ++ led (last_parts event.now)) }
    ensures err { OnErr result (IsPrefix out.old out.new) }
{
    put_ttl(alloc, event.ttl, out)?;
    put_metric(alloc, event.metric, out)?;
    put_tags(alloc, event.tags.as_slice(), out)?;
    put_attributes(alloc, event.attributes.as_slice(), out)
}

#[tactic(auto, using(crate::proofs::JoiningLemmas::number_written))]
fn put_ttl(alloc: Global, ttl: Option<u32>, out: &mut Blob) -> Result<(), Memory>
    ensures ok { OnOk result (out.new ≡ out.old ++ led (ttl_part ttl)) }
    ensures err { OnErr result (IsPrefix out.old out.new) }
{
    let Some(ttl) = ttl else {
        return Ok(());
    };
    out.append(alloc, b" ttl=")?;
    let mut digits = Buffer::new();
    out.append(alloc, digits.format(ttl).as_bytes())
}

#[tactic(auto, using(crate::proofs::JoiningLemmas::number_led))]
fn put_metric(alloc: Global, metric: Option<i64>, out: &mut Blob) -> Result<(), Memory>
    ensures ok { OnOk result (out.new ≡ out.old ++ led (metric_part metric)) }
    ensures err { OnErr result (IsPrefix out.old out.new) }
{
    match metric {
        Some(metric) => put_number(alloc, b" metric=", metric, out),
        None => Ok(()),
    }
}

/// Appends the tags, where there are any.
#[tactic(auto, using(crate::proofs::JoiningLemmas::tags_written))]
fn put_tags(alloc: Global, tags: &[Text], out: &mut Blob) -> Result<(), Memory>
    ensures ok { OnOk result (out.new ≡ out.old ++ led (tags_part tags.now)) }
    ensures err { OnErr result (IsPrefix out.old out.new) }
{
    let Some((first, rest)) = tags.split_first() else {
        return Ok(());
    };
    out.append(alloc, b" tags=[")?;
    put_quoted(alloc, first, out)?;
    put_more_tags(alloc, rest, out)?;
    out.push(alloc, b']')
}

/// Appends each tag after a space.
#[tactic(auto, using(crate::proofs::JoiningLemmas::tags_step, crate::proofs::JoiningLemmas::tags_all))]
fn put_more_tags(alloc: Global, tags: &[Text], out: &mut Blob) -> Result<(), Memory>
    ensures ok { OnOk result (out.new ≡ out.old ++ led (map quoted tags.now)) }
    ensures err { OnErr result (IsPrefix out.old out.new) }
{
    for tag in tags {
        out.push(alloc, b' ')?;
        put_quoted(alloc, tag, out)?;
    }
    Ok(())
}

/// Appends each attribute after a space.
#[tactic(auto, using(crate::proofs::JoiningLemmas::attributes_step, crate::proofs::JoiningLemmas::attributes_all))]
fn put_attributes(alloc: Global, attributes: &[Attr], out: &mut Blob) -> Result<(), Memory>
    ensures ok { OnOk result (out.new ≡ out.old ++ led (map attribute_text attributes.now)) }
    ensures err { OnErr result (IsPrefix out.old out.new) }
{
    for attribute in attributes {
        out.push(alloc, b' ')?;
        put_attribute(alloc, attribute, out)?;
    }
    Ok(())
}

fn put_attribute(alloc: Global, attribute: &Attr, out: &mut Blob) -> Result<(), Memory>
    ensures ok { OnOk result (out.new ≡ out.old ++ attribute_text attribute.now) }
    ensures err { OnErr result (IsPrefix out.old out.new) }
{
    out.push(alloc, b'@')?;
    put_quoted(alloc, &attribute.key, out)?;
    put_value(alloc, &attribute.value, out)
}

fn put_value(alloc: Global, value: &Option<Text>, out: &mut Blob) -> Result<(), Memory>
    ensures ok { OnOk result (out.new ≡ out.old ++ value_text value.now) }
    ensures err { OnErr result (IsPrefix out.old out.new) }
{
    let Some(text) = value else {
        return Ok(());
    };
    out.push(alloc, b'=')?;
    put_quoted(alloc, text, out)
}
