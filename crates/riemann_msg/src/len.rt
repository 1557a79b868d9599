//! How many bytes a spelling has, without spelling it.

ghost use Rattle.std.specs.Prelude.{◌≡◌, ◌+◌, ◌^◌, ◌≤◌, ◌<◌, ℕ, length, IfOk, OnErr};
ghost use Rattle.std.specs.Int.{from_bool};
ghost use Rattle.pb_wire.specs.Varint.{varint};
ghost use Rattle.pb_wire.specs.Spelling.{Bytes, Eight, Four, Varint};
ghost use Rattle.riemann_msg.specs.Ttl.{bits_of};
ghost use Rattle.riemann_msg.specs.Spelling.{Counts, spelling, spelled, optional, repeated, int64, sint64, attribute_values, attribute_content, name_values, number_values, event_values, event_content, query_values, query_content};

use crate::msg::{Msg, QueryPart};
use crate::zigzag::zigzag;
use ev_types::{Attr, Event, Memory, Text};
use pb_wire::varint_len;

/// How many bytes the spelling of a message has. `Memory`: they are 2^64 or more, which is more than a `usize` can
/// count.
pub fn msg_len(msg: &Msg) -> Result<usize, Memory>
    ensures ok { IfOk result (λ n. n ≡ length (spelling msg.now)) }
    ensures err { OnErr result (2 ^ 64 ≤ length (spelling msg.now)) }
{
    let ok = flag_len(msg.ok);
    let asked = both(text_len(&msg.error), query_field_len(&msg.query));
    let front = both(Ok(ok), asked);
    both(front, events_len(msg.events.as_slice()))
}

/// How many bytes the events have, with their tags and lengths.
fn events_len(events: &[Event]) -> Result<usize, Memory>
    ensures { Counts result (length (spelled (repeated 6 event_content events.now))) }
{
    let mut len = Ok(0);
    for event in events {
        let field = embedded(event_len(event));
        len = both(len, field);
    }
    len
}

/// How many bytes the fields of an event have.
pub fn event_len(event: &Event) -> Result<usize, Memory>
    ensures { Counts result (length (spelled (event_values event.now))) }
{
    let tags = tags_len(event.tags.as_slice());
    let attributes = attributes_len(event.attributes.as_slice());
    let numbers = ttl_len(event.ttl) + numbers_len(event);
    let lists = both(tags, attributes);
    let front = both(names_len(event), lists);
    both(front, Ok(numbers))
}

/// How many bytes the time and the texts of an event have, with their tags and lengths.
fn names_len(event: &Event) -> Result<usize, Memory>
    ensures { Counts result (length (spelled (name_values event.now))) }
{
    let time = 1 + varint_len(event.time.cast_unsigned());
    let first = both(text_len(&event.state), text_len(&event.service));
    let last = both(text_len(&event.host), text_len(&event.description));
    let texts = both(first, last);
    both(Ok(time), texts)
}

/// How many bytes the fields of a query have.
#[tactic(auto, unfolding(crate::specs::Spelling::query_values))]
pub fn query_len(query: &QueryPart) -> Result<usize, Memory>
    ensures { Counts result (length (spelled (query_values query.now))) }
{
    text_len(&query.string)
}

/// How many bytes the query has with its tag and its length, where there is one.
fn query_field_len(query: &Option<QueryPart>) -> Result<usize, Memory>
    ensures { Counts result (length (spelled (optional 5 query_content query.now))) }
{
    match query {
        Some(query) => embedded(query_len(query)),
        None => Ok(0),
    }
}

/// How many bytes the tags have, with their tags in the wire form and lengths.
fn tags_len(tags: &[Text]) -> Result<usize, Memory>
    ensures { Counts result (length (spelled (repeated 7 Bytes tags.now))) }
{
    let mut len = Ok(0);
    for tag in tags {
        let field = embedded_len(tag.as_bytes().len());
        len = both(len, field);
    }
    len
}

/// How many bytes the attributes have, with their tags and lengths.
fn attributes_len(attributes: &[Attr]) -> Result<usize, Memory>
    ensures { Counts result (length (spelled (repeated 9 attribute_content attributes.now))) }
{
    let mut len = Ok(0);
    for attribute in attributes {
        let field = embedded(attribute_len(attribute));
        len = both(len, field);
    }
    len
}

/// How many bytes the fields of an attribute have.
pub fn attribute_len(attribute: &Attr) -> Result<usize, Memory>
    ensures { Counts result (length (spelled (attribute_values attribute.now))) }
{
    let key = embedded_len(attribute.key.as_bytes().len());
    both(key, text_len(&attribute.value))
}

/// How many bytes the ttl has with its tag, where there is one.
#[tactic(auto, using(crate::proofs::Lengths::ttl_length))]
fn ttl_len(ttl: Option<u32>) -> usize
    ensures length { result ≡ length (spelled (optional 8 (λ ttl. Four (bits_of ttl)) ttl)) }
    ensures few { result ≤ 5 }
{
    if ttl.is_some() { 5 } else { 0 }
}

/// How many bytes the time in microseconds and the metrics of an event have, with their tags.
#[tactic(auto, using(crate::proofs::Lengths::numbers_length))]
fn numbers_len(event: &Event) -> usize
    ensures length { result ≡ length (spelled (number_values event.now)) }
    ensures few { result ≤ 36 }
{
    let micros = micros_len(event.time_micros);
    let metric = metric_len(event.metric);
    micros + metric + double_len(event.raw_d) + float_len(event.raw_f)
}

/// How many bytes the bits of a double have with their tag, where there are some.
#[tactic(auto, using(crate::proofs::Lengths::double_length))]
fn double_len(bits: Option<u64>) -> usize
    ensures length { result ≡ length (spelled (optional 14 Eight bits)) }
    ensures few { result ≤ 9 }
{
    if bits.is_some() { 9 } else { 0 }
}

/// How many bytes the bits of a float have with their tag, where there are some.
#[tactic(auto, using(crate::proofs::Lengths::float_length))]
fn float_len(bits: Option<u32>) -> usize
    ensures length { result ≡ length (spelled (optional 15 Four bits)) }
    ensures few { result ≤ 5 }
{
    if bits.is_some() { 5 } else { 0 }
}

/// How many bytes the time in microseconds has with its tag, where there is one.
#[tactic(auto, using(crate::proofs::Lengths::micros_length))]
fn micros_len(micros: Option<i64>) -> usize
    ensures length { result ≡ length (spelled (optional 10 int64 micros)) }
    ensures few { result ≤ 11 }
{
    match micros {
        Some(micros) => 1 + varint_len(micros.cast_unsigned()),
        None => 0,
    }
}

/// How many bytes the metric has with its tag, where there is one.
#[tactic(auto, using(crate::proofs::Lengths::metric_length))]
fn metric_len(metric: Option<i64>) -> usize
    ensures length { result ≡ length (spelled (optional 13 sint64 metric)) }
    ensures few { result ≤ 11 }
{
    match metric {
        Some(metric) => 1 + varint_len(zigzag(metric)),
        None => 0,
    }
}

/// How many bytes the flag has with its tag, where there is one.
#[tactic(auto, using(crate::proofs::Lengths::flag_length))]
pub(crate) fn flag_len(flag: Option<bool>) -> usize
    ensures { result ≡ length (spelled (optional 2 (λ ok. Varint (from_bool ok)) flag)) }
{
    if flag.is_some() { 2 } else { 0 }
}

/// How many bytes the text has with its tag and its length, where there is one and its number is below 16.
#[tactic(auto, using(crate::proofs::Lengths::text_length))]
fn text_len(text: &Option<Text>) -> Result<usize, Memory>
    ensures { (number : ℕ) → number < 16
        → Counts result (length (spelled (optional number Bytes text.now))) }
{
    match text {
        Some(text) => embedded_len(text.as_bytes().len()),
        None => Ok(0),
    }
}

/// How many bytes `len` bytes have with a tag of one byte and their length.
fn embedded_len(len: usize) -> Result<usize, Memory>
    ensures { Counts result (1 + (length (varint len) + len)) }
{
    sum(1 + varint_len(len as u64), len)
}

fn sum(a: usize, b: usize) -> Result<usize, Memory>
    ensures { Counts result (a + b) }
{
    a.checked_add(b).ok_or(Memory)
}

/// How many bytes a message has with a tag of one byte and its length, where its own bytes were counted.
pub(crate) fn embedded(counted: Result<usize, Memory>) -> Result<usize, Memory>
    ensures { (n : ℕ) → Counts counted n → Counts result (1 + (length (varint n) + n)) }
{
    let len = counted?;
    embedded_len(len)
}

/// The sum of two lengths, where both were counted.
pub(crate) fn both(
    first: Result<usize, Memory>,
    second: Result<usize, Memory>,
) -> Result<usize, Memory>
    ensures { (m : ℕ) (n : ℕ) → Counts first m → Counts second n → Counts result (m + n) }
{
    let a = first?;
    let b = second?;
    sum(a, b)
}
