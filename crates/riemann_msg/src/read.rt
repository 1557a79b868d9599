//! Reading messages, field by field. What reads a field of an event is always inlined: the reading of a state is a
//! second caller, and each field of an event would else be a call.

ghost use Rattle.std.specs.Prelude.{◌≡◌, ℕ, ◌+◌, ◌^◌, ◌<◌, ◌≤◌, ◌++◌, ◌∷◌, [], List, drop, length, take, Option, OnOk, OnErr, IfOk, IfErr, None, pos};
ghost use Rattle.std.specs.List.{fold};
ghost use Rattle.std.specs.Option.{option_map};
ghost use Rattle.ev_types.specs.Set.{event_at};
ghost use Rattle.pb_wire.specs.Fields.{FieldAt, LiesWithin, fields_of};
ghost use Rattle.pb_wire.specs.Spelling.{Varint, Eight, Bytes, Four};
ghost use Rattle.riemann_msg.specs.Cleared.{AreCleared};
ghost use Rattle.riemann_msg.specs.Value.{event_of, event_with, attribute_of, is_of_state, message_of, rounded, state_of};
ghost use Rattle.riemann_msg.specs.Fault.{Fault, moved, first_by, IsRefusedFor, Decodes, attribute_field_fault, event_field_fault, state_field_fault, query_field_fault, message_field_fault, attribute_fault, event_fault, state_fault, query_fault, first_fault};
ghost use Rattle.riemann_msg.specs.Spelling.{field, IsSpellable};
ghost use Rattle.riemann_msg.specs.Draft.{Puts, field_at, value_at, attribute_with, query_joined, query_with, state_with, message_with, message_in, fresh_message, utf8_fault, four_fault, bytes_fault, part_fault};

use crate::fault::{MsgFault, MsgWhy};
use crate::fields::{
    ATTRIBUTES, DESCRIPTION, ERROR, EVENTS, HOST, KEY, METRIC_D, METRIC_F, METRIC_SINT64, OK,
    QUERY, SERVICE, STATE, STATES, STRING, TAGS, TIME, TIME_MICROS, TTL, VALUE,
};
use crate::msg::{Msg, QueryPart};
use crate::spent::SpentEvents;
use crate::ttl::ttl_of_bits;
use crate::zigzag::unzigzag;
use ev_types::{Attr, Attrs, Event, Events, Memory, Tags, Text, TextFault};
use pb_wire::{Body, FieldReader, Next};
use std::alloc::Global;
use std::marker::Model;

/// A message of some kind, of which some fields were read.
trait Draft {
    /// The fault of a field, with places counted in the bytes.
    ghost fault: { List ℕ → FieldAt → Option Fault };

    /// The draft when one more field of the bytes was read.
    ghost with_field: { List ℕ → Self → FieldAt → Self };

    /// Reads one more field of the bytes. They begin at `base` in the whole message, from whose start the places of
    /// faults count.
    fn put(
        &mut self,
        alloc: Global,
        bytes: &[u8],
        base: usize,
        number: u32,
        body: Body,
        place: usize,
    ) -> Result<(), MsgFault>
        requires fits { base + length bytes.now < 2 ^ 64 }
        requires place { place < length bytes.now }
        requires body { LiesWithin (length bytes.now) body }
        ensures ok { OnOk result ((fault bytes.now (field_at number body place) ≡ None)
            × (self.new ≡ with_field bytes.now self.old (field_at number body place))) }
        ensures refused { IfErr result (IsRefusedFor
            (option_map (moved base) (fault bytes.now (field_at number body place)))) };
}

/// Reads the fields of the bytes into the draft, up to the first fault. The bytes begin at `base` in the whole
/// message.
#[inline(always)]
fn read_fields<D: Draft>(
    alloc: Global,
    bytes: &[u8],
    base: usize,
    draft: &mut D,
) -> Result<(), MsgFault>
    requires { base + length bytes.now < 2 ^ 64 }
    ensures ok { OnOk result ((first_by (D.fault bytes.now) bytes.now ≡ None)
        × (draft.new ≡ fold (D.with_field bytes.now) draft.old (fields_of bytes.now))) }
    ensures refused { IfErr result (IsRefusedFor
        (option_map (moved base) (first_by (D.fault bytes.now) bytes.now))) }
{
    let mut fields = FieldReader::over(bytes);
    'fields: loop {
        match fields.next() {
            Next::End => return Ok(()),
            Next::Refused { place, why } => {
                return Err(MsgFault::Refused {
                    place: base + place,
                    why: MsgWhy::from(why),
                });
            }
            Next::Field {
                number,
                body,
                place,
            } => draft.put(alloc, bytes, base, number, body, place)?,
        }
    }
}

/// The bytes as a text. Where they are not UTF-8, the fault is at `place` in the whole message.
#[inline(always)]
fn text_of(alloc: Global, bytes: &[u8], place: usize) -> Result<Text, MsgFault>
    ensures { Decodes (utf8_fault place bytes.now) bytes.now result }
{
    match Text::read(alloc, bytes) {
        Ok(text) => Ok(text),
        Err(TextFault::Utf8 { .. }) => Err(MsgFault::Refused {
            place,
            why: MsgWhy::Utf8,
        }),
        Err(TextFault::Memory) => Err(MsgFault::Memory),
    }
}

/// Puts the bytes as a text in the place of what the field held. Where they are not UTF-8, the fault is at `place` in
/// the whole message.
#[inline(always)]
fn put_text(
    alloc: Global,
    field: &mut Option<Text>,
    bytes: &[u8],
    place: usize,
) -> Result<(), MsgFault>
    ensures { Puts (utf8_fault place bytes.now) (Some bytes.now) result field.new }
{
    *field = Some(text_of(alloc, bytes, place)?);
    Ok(())
}

/// Adds the bytes as a text to the tags. Where they are not UTF-8, the fault is at `place` in the whole message.
#[inline(always)]
fn push_tag(alloc: Global, tags: &mut Tags, bytes: &[u8], place: usize) -> Result<(), MsgFault>
    ensures { Puts (utf8_fault place bytes.now) (tags.old ++ bytes.now ∷ []) result tags.new }
{
    tags.push(alloc, text_of(alloc, bytes, place)?)?;
    Ok(())
}

/// The fields of an attribute.
#[derive(Drop)]
struct AttrDraft {
    key: Option<Text>,
    value: Option<Text>,
}

impl Draft for AttrDraft {
    ghost fault = { attribute_field_fault };

    ghost with_field = { λ bytes draft field. attribute_with draft (value_at bytes field ∷ []) };

    #[inline(always)]
    fn put(
        &mut self,
        alloc: Global,
        bytes: &[u8],
        base: usize,
        number: u32,
        body: Body,
        place: usize,
    ) -> Result<(), MsgFault> {
        let Body::Bytes { start, end } = body else {
            return Ok(());
        };
        let text = &bytes[start..end];
        match number {
            KEY => put_text(alloc, &mut self.key, text, base + place),
            VALUE => put_text(alloc, &mut self.value, text, base + place),
            _ => Ok(()),
        }
    }
}

/// Reads the bytes, which begin at `base` in the whole message, as an attribute.
#[inline(always)]
fn read_attribute(alloc: Global, bytes: &[u8], base: usize) -> Result<Attr, MsgFault>
    requires { base + length bytes.now < 2 ^ 64 }
    ensures { Decodes (option_map (moved base) (attribute_fault bytes.now))
        (attribute_of bytes.now) result }
{
    let mut draft = AttrDraft {
        key: None,
        value: None,
    };
    read_fields(alloc, bytes, base, &mut draft)?;
    let AttrDraft { key, value } = draft;
    match key {
        Some(key) => Ok(Attr { key, value }),
        None => Err(MsgFault::Refused {
            place: base + bytes.len(),
            why: MsgWhy::Key,
        }),
    }
}

/// Reads the bytes, which begin at `base` in the whole message, as an attribute, and adds it to the attributes.
#[inline(always)]
fn push_attribute(
    alloc: Global,
    attributes: &mut Attrs,
    bytes: &[u8],
    base: usize,
) -> Result<(), MsgFault>
    requires { base + length bytes.now < 2 ^ 64 }
    ensures { Puts (option_map (moved base) (attribute_fault bytes.now))
        (attributes.old ++ attribute_of bytes.now ∷ []) result attributes.new }
{
    attributes.push(alloc, read_attribute(alloc, bytes, base)?)?;
    Ok(())
}

impl Draft for QueryPart {
    ghost fault = { query_field_fault };

    ghost with_field = { λ bytes query field. query_with query (value_at bytes field ∷ []) };

    fn put(
        &mut self,
        alloc: Global,
        bytes: &[u8],
        base: usize,
        number: u32,
        body: Body,
        place: usize,
    ) -> Result<(), MsgFault> {
        match (number, body) {
            (STRING, Body::Bytes { start, end }) => {
                put_text(alloc, &mut self.string, &bytes[start..end], base + place)
            }
            _ => Ok(()),
        }
    }
}

/// Reads the bytes, which begin at `base` in the whole message, as more fields of the query.
#[tactic(auto, unfolding(crate::specs::Fault::query_fault))]
fn put_query(
    alloc: Global,
    field: &mut Option<QueryPart>,
    bytes: &[u8],
    base: usize,
) -> Result<(), MsgFault>
    requires { base + length bytes.now < 2 ^ 64 }
    ensures { Puts (option_map (moved base) (query_fault bytes.now))
        (query_joined field.old bytes.now) result field.new }
{
    let mut query = field.take().unwrap_or(QueryPart { string: None });
    read_fields(alloc, bytes, base, &mut query)?;
    *field = Some(query);
    Ok(())
}

/// Reads a field of the type varint.
#[inline(always)]
fn put_varint(event: &mut Event, number: u32, value: u64)
    ensures { event.new ≡ event_with event.old (field number (Varint value) ∷ []) }
{
    match number {
        TIME => event.time = value.cast_signed(),
        TIME_MICROS => event.time_micros = Some(value.cast_signed()),
        METRIC_SINT64 => event.metric = Some(unzigzag(value)),
        _ => {}
    }
}

/// Reads a field of eight bytes.
#[inline(always)]
fn put_eight(event: &mut Event, number: u32, bits: u64)
    ensures { event.new ≡ event_with event.old (field number (Eight bits) ∷ []) }
{
    if number == METRIC_D {
        event.raw_d = Some(bits);
    }
}

/// Reads a field of four bytes.
#[inline(always)]
fn put_four(event: &mut Event, number: u32, bits: u32, place: usize) -> Result<(), MsgFault>
    ensures { Puts (four_fault number bits place)
        (event_with event.old (field number (Four bits) ∷ [])) result event.new }
{
    if number == TTL {
        let Some(ttl) = ttl_of_bits(bits) else {
            return Err(MsgFault::Refused {
                place,
                why: MsgWhy::Ttl,
            });
        };
        event.ttl = Some(ttl);
    } else if number == METRIC_F {
        event.raw_f = Some(bits);
    }
    Ok(())
}

/// Reads a field of bytes, which begin at `base` in the whole message. Its tag is at `place`.
#[inline(always)]
fn put_bytes(
    event: &mut Event,
    alloc: Global,
    number: u32,
    bytes: &[u8],
    base: usize,
    place: usize,
) -> Result<(), MsgFault>
    requires { base + length bytes.now < 2 ^ 64 }
    ensures { Puts (bytes_fault number bytes.now base place)
        (event_with event.old (field number (Bytes bytes.now) ∷ [])) result event.new }
{
    match number {
        STATE => put_text(alloc, &mut event.state, bytes, place),
        SERVICE => put_text(alloc, &mut event.service, bytes, place),
        HOST => put_text(alloc, &mut event.host, bytes, place),
        DESCRIPTION => put_text(alloc, &mut event.description, bytes, place),
        TAGS => push_tag(alloc, &mut event.tags, bytes, place),
        ATTRIBUTES => push_attribute(alloc, &mut event.attributes, bytes, base),
        _ => Ok(()),
    }
}

impl Draft for Event {
    ghost fault = { event_field_fault };

    ghost with_field = { λ bytes event field. event_with event (value_at bytes field ∷ []) };

    #[inline(always)]
    fn put(
        &mut self,
        alloc: Global,
        bytes: &[u8],
        base: usize,
        number: u32,
        body: Body,
        place: usize,
    ) -> Result<(), MsgFault> {
        match body {
            Body::Varint(value) => {
                put_varint(self, number, value);
                Ok(())
            }
            Body::Eight(bits) => {
                put_eight(self, number, bits);
                Ok(())
            }
            Body::Four(bits) => put_four(self, number, bits, base + place),
            Body::Bytes { start, end } => {
                let part = &bytes[start..end];
                put_bytes(self, alloc, number, part, base + start, base + place)
            }
        }
    }
}

/// Reads the bytes, which begin at `base` in the whole message, into an event that is cleared. One without a time gets
/// `now`.
#[tactic(auto, unfolding(crate::specs::Fault::event_fault))]
fn read_event(
    alloc: Global,
    now: i64,
    bytes: &[u8],
    base: usize,
    event: &mut Event,
) -> Result<(), MsgFault>
    requires fits { base + length bytes.now < 2 ^ 64 }
    requires cleared { event.old ≡ event_at (pos 0) }
    ensures { Puts (option_map (moved base) (event_fault bytes.now))
        (event_of now bytes.now) result event.new }
{
    event.time = now;
    read_fields(alloc, bytes, base, event)?;
    round_time(event);
    Ok(())
}

/// Sets the time of an event that has one in microseconds to that, rounded down to seconds.
fn round_time(event: &mut Event)
    ensures { event.new ≡ rounded event.old }
{
    if let Some(micros) = event.time_micros {
        event.time = micros.div_euclid(1_000_000);
    }
}

/// Whether a state has a field with this number, as an event has it.
#[tactic(auto, unfolding(crate::specs::Value::is_of_state))]
fn is_of_state(number: u32) -> bool
    ensures { result ≡ is_of_state number }
{
    matches!(
        number,
        TIME | STATE | SERVICE | HOST | DESCRIPTION | TAGS | TTL
    )
}

/// A state, of which some fields were read, as the event that it is.
#[derive(Drop)]
struct StateDraft {
    event: Event,
}

impl Draft for StateDraft {
    ghost fault = { state_field_fault };

    ghost with_field = { λ bytes draft field. state_with draft (value_at bytes field) };

    fn put(
        &mut self,
        alloc: Global,
        bytes: &[u8],
        base: usize,
        number: u32,
        body: Body,
        place: usize,
    ) -> Result<(), MsgFault> {
        if is_of_state(number) {
            self.event.put(alloc, bytes, base, number, body, place)?;
        }
        Ok(())
    }
}

/// Reads the bytes, which begin at `base` in the whole message, as a state, and adds it to the states. One without a
/// time gets `now`. It is never inlined, since its local event is large and would be cleared at each entry of the
/// caller.
#[tactic(auto, unfolding(crate::specs::Fault::state_fault))]
#[cold]
#[inline(never)]
fn push_state(
    alloc: Global,
    now: i64,
    states: &mut Events,
    bytes: &[u8],
    base: usize,
) -> Result<(), MsgFault>
    requires { base + length bytes.now < 2 ^ 64 }
    ensures { Puts (option_map (moved base) (state_fault bytes.now))
        (states.old ++ state_of now bytes.now ∷ []) result states.new }
{
    let mut draft = StateDraft {
        event: Event::at(alloc, now),
    };
    read_fields(alloc, bytes, base, &mut draft)?;
    states.push(alloc, draft.event)?;
    Ok(())
}

/// The states and after them the events, where there are states. Otherwise it takes no memory.
fn states_first(states: Events, events: Events) -> Result<Events, Memory>
    ensures { IfOk result (λ all. all ≡ states ++ events) }
{
    if states.len() == 0 {
        return Ok(events);
    }
    let mut all = states.into_vec();
    let mut events = events.into_vec();
    all.append(&mut events)?;
    Ok(Events::from_vec(all))
}

/// The events that were read so far: the first `count` of a list. The others are cleared, and their memory can be used
/// for more events.
#[derive(Drop)]
struct EventsDraft {
    events: Events,
    count: usize,
}

impl Model for EventsDraft {
    ghost use Rattle.std.specs.Prelude.{◌≤◌, List, drop, length, take};
    ghost use Rattle.ev_types.specs.declared.event.Event.{Event as OneEvent};
    ghost use Rattle.riemann_msg.specs.Cleared.{AreCleared};

    ghost Value = { List OneEvent };

    ghost view = { λ draft. take draft.count draft.events };

    ghost invariant = { λ draft. (draft.count ≤ length draft.events)
        × AreCleared (drop draft.count draft.events) };
}

impl EventsDraft {
    /// No event, with the memory of `spent`.
    fn reusing(spent: SpentEvents) -> EventsDraft
        ensures { result ≡ [] }
    {
        EventsDraft {
            events: spent.into_events(),
            count: 0,
        }
    }

    /// Reads the bytes, which begin at `base` in the whole message, as one more event. One without a time gets `now`.
    /// An event that is refused counts too, since it holds what was read of it before its fault.
    fn add(&mut self, alloc: Global, now: i64, bytes: &[u8], base: usize) -> Result<(), MsgFault>
        requires { base + length bytes.now < 2 ^ 64 }
        ensures { Puts (option_map (moved base) (event_fault bytes.now))
            (self.old ++ event_of now bytes.now ∷ []) result self.new }
    {
        make_room(alloc, &mut self.events, self.count)?;
        let read = read_event_at(alloc, now, bytes, base, &mut self.events, self.count);
        self.count += 1;
        read
    }

    /// The events that were read.
    fn into_events(self) -> Events
        ensures { result ≡ self }
    {
        let EventsDraft { events, count } = self;
        let mut events = events;
        events.truncate(count);
        events
    }
}

/// Gives the list an event after its first `count` ones, where it has none there. Those after the first `count` are
/// cleared.
fn make_room(alloc: Global, events: &mut Events, count: usize) -> Result<(), Memory>
    requires count { count ≤ length events.old }
    requires cleared { AreCleared (drop count events.old) }
    ensures same { take count events.new ≡ take count events.old }
    ensures kept { count ≤ length events.new }
    ensures cleared { AreCleared (drop count events.new) }
    ensures room { OnOk result (count < length events.new) }
{
    if count == events.len() {
        push_blank(alloc, events)?;
    }
    Ok(())
}

/// Adds an event that holds nothing. It is never inlined, since its local event is large and would be cleared at each
/// entry of the caller.
#[cold]
#[inline(never)]
fn push_blank(alloc: Global, events: &mut Events) -> Result<(), Memory>
    ensures ok { OnOk result (events.new ≡ events.old ++ event_at (pos 0) ∷ []) }
    ensures err { OnErr result (events.new ≡ events.old) }
{
    events.push(alloc, Event::at(alloc, 0))
}

/// Reads the bytes, which begin at `base` in the whole message, into the event after the first `count` ones. One
/// without a time gets `now`. Those after the first `count` are cleared before, and those after it stay so.
fn read_event_at(
    alloc: Global,
    now: i64,
    bytes: &[u8],
    base: usize,
    events: &mut Events,
    count: usize,
) -> Result<(), MsgFault>
    requires bytes { base + length bytes.now < 2 ^ 64 }
    requires room { count < length events.old }
    requires cleared { AreCleared (drop count events.old) }
    ensures reads { Puts (option_map (moved base) (event_fault bytes.now))
        (take count events.old ++ event_of now bytes.now ∷ []) result
        (take (count + 1) events.new) }
    ensures room { count < length events.new }
    ensures cleared { AreCleared (drop (count + 1) events.new) }
    ensures fits { length events.new < 2 ^ 64 }
{
    // Each length of a list is less than 2^64, so that the next count is too.
    let _len = events.len();
    read_event(alloc, now, bytes, base, events.get_mut(count))
}

/// The fields of a message that is read at the second `now`.
#[derive(Drop)]
struct MsgDraft {
    now: i64,
    ok: Option<bool>,
    error: Option<Text>,
    query: Option<QueryPart>,
    states: Events,
    events: EventsDraft,
}

impl MsgDraft {
    /// No field, with the memory of `spent`.
    fn reusing(alloc: Global, spent: SpentEvents, now: u64) -> MsgDraft
        requires { now < 2 ^ 63 }
        ensures { result ≡ fresh_message (pos now) }
    {
        MsgDraft {
            now: now as i64,
            ok: None,
            error: None,
            query: None,
            states: Events::fresh(alloc),
            events: EventsDraft::reusing(spent),
        }
    }

    /// Reads a field of bytes, which begin at `base` in the whole message. Its tag is at `place`.
    fn put_bytes(
        &mut self,
        alloc: Global,
        number: u32,
        bytes: &[u8],
        base: usize,
        place: usize,
    ) -> Result<(), MsgFault>
        requires { base + length bytes.now < 2 ^ 64 }
        ensures { Puts (part_fault number bytes.now base place)
            (message_with self.old (field number (Bytes bytes.now) ∷ [])) result self.new }
    {
        match number {
            ERROR => put_text(alloc, &mut self.error, bytes, place),
            QUERY => put_query(alloc, &mut self.query, bytes, base),
            EVENTS => self.events.add(alloc, self.now, bytes, base),
            STATES => push_state(alloc, self.now, &mut self.states, bytes, base),
            _ => Ok(()),
        }
    }

    /// The message that was read.
    fn into_msg(self) -> Result<Msg, Memory>
        ensures { IfOk result (λ msg. msg ≡ message_in self) }
    {
        let MsgDraft {
            now: _,
            ok,
            error,
            query,
            states,
            events,
        } = self;
        let events = states_first(states, events.into_events())?;
        Ok(Msg {
            ok,
            error,
            query,
            events,
        })
    }
}

impl Draft for MsgDraft {
    ghost fault = { message_field_fault };

    ghost with_field = { λ bytes draft field. message_with draft (value_at bytes field ∷ []) };

    fn put(
        &mut self,
        alloc: Global,
        bytes: &[u8],
        base: usize,
        number: u32,
        body: Body,
        place: usize,
    ) -> Result<(), MsgFault> {
        match body {
            Body::Varint(value) => {
                if number == OK {
                    self.ok = Some(value != 0);
                }
                Ok(())
            }
            Body::Bytes { start, end } => {
                let part = &bytes[start..end];
                self.put_bytes(alloc, number, part, base + start, base + place)
            }
            _ => Ok(()),
        }
    }
}

/// Reads the bytes as a message, at the moment `now` in seconds since 1970, which is less than 2^63, into the memory of
/// `spent`. Its states are events too, and come before the others. An event without a time gets `now`. `Refused` comes
/// for the first fault in the order of the fields, and then nothing was read. `Memory`: out of memory.
#[tactic(auto, unfolding(crate::specs::Fault::first_fault))]
pub fn read_msg_into(
    alloc: Global,
    body: &[u8],
    now: u64,
    spent: SpentEvents,
) -> Result<Msg, MsgFault>
    requires { now < 2 ^ 63 }
    ensures reads { Decodes (first_fault body.now) (message_of now body.now) result }
    ensures spellable { IfOk result IsSpellable }
{
    let mut draft = MsgDraft::reusing(alloc, spent, now);
    read_fields(alloc, body, 0, &mut draft)?;
    Ok(draft.into_msg()?)
}
