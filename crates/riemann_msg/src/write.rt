ghost use Rattle.std.specs.Prelude.{◌≡◌, ℕ, ◌++◌, ◌<◌, ◌^◌, OnOk, OnErr};
ghost use Rattle.std.specs.Int.{from_bool};
ghost use Rattle.list_laws.specs.Prefix.{IsPrefix};
ghost use Rattle.pb_wire.specs.Spelling.{Bytes, Eight, Four, Varint, bytes_head, field_spelling};
ghost use Rattle.riemann_msg.specs.Ttl.{bits_of};
ghost use Rattle.riemann_msg.specs.Spelling.{Counts, spelling, spelled, optional, repeated, int64, sint64, attribute_values, attribute_content, name_values, number_values, event_values, event_content, query_content};

use crate::fields::{
    ATTRIBUTES, DESCRIPTION, ERROR, EVENTS, HOST, KEY, METRIC_D, METRIC_F, METRIC_SINT64, OK,
    QUERY, SERVICE, STATE, STRING, TAGS, TIME, TIME_MICROS, TTL, VALUE,
};
use crate::len::{attribute_len, event_len, query_len};
use crate::msg::{Msg, QueryPart};
use crate::ttl::bits_of_ttl;
use crate::zigzag::zigzag;
use ev_types::{Attr, Blob, Event, Memory, Text};
use pb_wire::{PutBody, put_field, put_tag_and_length};
use std::alloc::Global;

/// Appends the spelling of a message. If memory runs out, `out` still begins with what it had.
pub fn write_msg(alloc: Global, msg: &Msg, out: &mut Blob) -> Result<(), Memory>
    ensures ok { OnOk result (out.new ≡ out.old ++ spelling msg.now) }
    ensures err { OnErr result (IsPrefix out.old out.new) }
{
    put_flag(alloc, msg.ok, out)?;
    put_text(alloc, ERROR, &msg.error, out)?;
    put_query(alloc, &msg.query, out)?;
    put_events(alloc, msg.events.as_slice(), out)?;
    Ok(())
}

/// Appends the flag, where there is one.
pub(crate) fn put_flag(alloc: Global, flag: Option<bool>, out: &mut Blob) -> Result<(), Memory>
    ensures ok { OnOk result (out.new
        ≡ out.old ++ spelled (optional 2 (λ ok. Varint (from_bool ok)) flag)) }
    ensures err { OnErr result (IsPrefix out.old out.new) }
{
    if let Some(flag) = flag {
        put_field(alloc, out, OK, PutBody::Varint(u64::from(flag)))?;
    }
    Ok(())
}

/// Appends the text, where there is one.
fn put_text(alloc: Global, number: u32, text: &Option<Text>, out: &mut Blob) -> Result<(), Memory>
    requires positive { 0 < number }
    requires small { number < 2 ^ 29 }
    ensures ok { OnOk result (out.new ≡ out.old ++ spelled (optional number Bytes text.now)) }
    ensures err { OnErr result (IsPrefix out.old out.new) }
{
    match text {
        Some(text) => put_field(alloc, out, number, PutBody::Bytes(text.as_bytes())),
        None => Ok(()),
    }
}

/// Appends the query, where there is one.
#[tactic(auto, unfolding(crate::specs::Spelling::query_values))]
fn put_query(alloc: Global, query: &Option<QueryPart>, out: &mut Blob) -> Result<(), Memory>
    ensures ok { OnOk result (out.new ≡ out.old ++ spelled (optional 5 query_content query.now)) }
    ensures err { OnErr result (IsPrefix out.old out.new) }
{
    if let Some(query) = query {
        put_head(alloc, out, QUERY, query_len(query))?;
        put_text(alloc, STRING, &query.string, out)?;
    }
    Ok(())
}

/// Appends the events.
fn put_events(alloc: Global, events: &[Event], out: &mut Blob) -> Result<(), Memory>
    ensures ok { OnOk result (out.new ≡ out.old
        ++ spelled (repeated 6 event_content events.now)) }
    ensures err { OnErr result (IsPrefix out.old out.new) }
{
    for event in events {
        put_event_field(alloc, event, out)?;
    }
    Ok(())
}

/// Appends an event as a field of a message.
pub(crate) fn put_event_field(alloc: Global, event: &Event, out: &mut Blob) -> Result<(), Memory>
    ensures ok { OnOk result (out.new ≡ out.old ++ field_spelling 6 (event_content event.now)) }
    ensures err { OnErr result (IsPrefix out.old out.new) }
{
    put_head(alloc, out, EVENTS, event_len(event))?;
    put_event(alloc, event, out)?;
    Ok(())
}

/// Appends the tag and the length of a message, whose own bytes were counted. The caller appends those.
fn put_head(
    alloc: Global,
    out: &mut Blob,
    number: u32,
    counted: Result<usize, Memory>,
) -> Result<(), Memory>
    requires positive { 0 < number }
    requires small { number < 2 ^ 29 }
    ensures ok { OnOk result ((n : ℕ) → Counts counted n
        → out.new ≡ out.old ++ bytes_head number n) }
    ensures err { OnErr result (IsPrefix out.old out.new) }
{
    let len = counted?;
    put_tag_and_length(alloc, out, number, len)?;
    Ok(())
}

/// Appends the fields of an event.
fn put_event(alloc: Global, event: &Event, out: &mut Blob) -> Result<(), Memory>
    ensures ok { OnOk result (out.new ≡ out.old ++ spelled (event_values event.now)) }
    ensures err { OnErr result (IsPrefix out.old out.new) }
{
    put_names(alloc, event, out)?;
    put_tags(alloc, event.tags.as_slice(), out)?;
    put_ttl(alloc, event.ttl, out)?;
    put_attributes(alloc, event.attributes.as_slice(), out)?;
    put_numbers(alloc, event, out)?;
    Ok(())
}

/// Appends the time and the texts of an event.
#[tactic(auto, using(crate::proofs::Spelled::names_spelled))]
fn put_names(alloc: Global, event: &Event, out: &mut Blob) -> Result<(), Memory>
    ensures ok { OnOk result (out.new ≡ out.old ++ spelled (name_values event.now)) }
    ensures err { OnErr result (IsPrefix out.old out.new) }
{
    put_field(
        alloc,
        out,
        TIME,
        PutBody::Varint(event.time.cast_unsigned()),
    )?;
    put_text(alloc, STATE, &event.state, out)?;
    put_text(alloc, SERVICE, &event.service, out)?;
    put_text(alloc, HOST, &event.host, out)?;
    put_text(alloc, DESCRIPTION, &event.description, out)?;
    Ok(())
}

/// Appends the tags.
fn put_tags(alloc: Global, tags: &[Text], out: &mut Blob) -> Result<(), Memory>
    ensures ok { OnOk result (out.new ≡ out.old ++ spelled (repeated 7 Bytes tags.now)) }
    ensures err { OnErr result (IsPrefix out.old out.new) }
{
    for tag in tags {
        put_field(alloc, out, TAGS, PutBody::Bytes(tag.as_bytes()))?;
    }
    Ok(())
}

/// Appends the ttl, where there is one.
fn put_ttl(alloc: Global, ttl: Option<u32>, out: &mut Blob) -> Result<(), Memory>
    ensures ok { OnOk result (out.new
        ≡ out.old ++ spelled (optional 8 (λ ttl. Four (bits_of ttl)) ttl)) }
    ensures err { OnErr result (IsPrefix out.old out.new) }
{
    match ttl {
        Some(ttl) => put_field(alloc, out, TTL, PutBody::Four(bits_of_ttl(ttl))),
        None => Ok(()),
    }
}

/// Appends the attributes.
fn put_attributes(alloc: Global, attributes: &[Attr], out: &mut Blob) -> Result<(), Memory>
    ensures ok { OnOk result (out.new
        ≡ out.old ++ spelled (repeated 9 attribute_content attributes.now)) }
    ensures err { OnErr result (IsPrefix out.old out.new) }
{
    for attribute in attributes {
        put_attribute(alloc, attribute, out)?;
    }
    Ok(())
}

/// Appends an attribute as a field of an event.
fn put_attribute(alloc: Global, attribute: &Attr, out: &mut Blob) -> Result<(), Memory>
    ensures ok { OnOk result (out.new
        ≡ out.old ++ field_spelling 9 (attribute_content attribute.now)) }
    ensures err { OnErr result (IsPrefix out.old out.new) }
{
    put_head(alloc, out, ATTRIBUTES, attribute_len(attribute))?;
    put_field(alloc, out, KEY, PutBody::Bytes(attribute.key.as_bytes()))?;
    put_text(alloc, VALUE, &attribute.value, out)?;
    Ok(())
}

/// Appends the time in microseconds and the metrics of an event.
fn put_numbers(alloc: Global, event: &Event, out: &mut Blob) -> Result<(), Memory>
    ensures ok { OnOk result (out.new ≡ out.old ++ spelled (number_values event.now)) }
    ensures err { OnErr result (IsPrefix out.old out.new) }
{
    put_micros(alloc, event.time_micros, out)?;
    put_metric(alloc, event.metric, out)?;
    put_double(alloc, event.raw_d, out)?;
    put_float(alloc, event.raw_f, out)?;
    Ok(())
}

/// Appends the time in microseconds, where there is one.
fn put_micros(alloc: Global, micros: Option<i64>, out: &mut Blob) -> Result<(), Memory>
    ensures ok { OnOk result (out.new ≡ out.old ++ spelled (optional 10 int64 micros)) }
    ensures err { OnErr result (IsPrefix out.old out.new) }
{
    if let Some(micros) = micros {
        put_field(
            alloc,
            out,
            TIME_MICROS,
            PutBody::Varint(micros.cast_unsigned()),
        )?;
    }
    Ok(())
}

/// Appends the metric, where there is one.
fn put_metric(alloc: Global, metric: Option<i64>, out: &mut Blob) -> Result<(), Memory>
    ensures ok { OnOk result (out.new ≡ out.old ++ spelled (optional 13 sint64 metric)) }
    ensures err { OnErr result (IsPrefix out.old out.new) }
{
    if let Some(metric) = metric {
        put_field(alloc, out, METRIC_SINT64, PutBody::Varint(zigzag(metric)))?;
    }
    Ok(())
}

/// Appends the bits of a metric that came as a double, where there are some.
fn put_double(alloc: Global, bits: Option<u64>, out: &mut Blob) -> Result<(), Memory>
    ensures ok { OnOk result (out.new ≡ out.old ++ spelled (optional 14 Eight bits)) }
    ensures err { OnErr result (IsPrefix out.old out.new) }
{
    match bits {
        Some(bits) => put_field(alloc, out, METRIC_D, PutBody::Eight(bits)),
        None => Ok(()),
    }
}

/// Appends the bits of a metric that came as a float, where there are some.
fn put_float(alloc: Global, bits: Option<u32>, out: &mut Blob) -> Result<(), Memory>
    ensures ok { OnOk result (out.new ≡ out.old ++ spelled (optional 15 Four bits)) }
    ensures err { OnErr result (IsPrefix out.old out.new) }
{
    match bits {
        Some(bits) => put_field(alloc, out, METRIC_F, PutBody::Four(bits)),
        None => Ok(()),
    }
}
