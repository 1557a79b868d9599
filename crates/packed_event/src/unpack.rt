//! Reading a packed event into one that owns its parts. The bytes are known to be those of an event: for other bytes
//! the contracts of the functions here say nothing.

ghost use Rattle.std.specs.Prelude.{◌≡◌, ℕ, ℤ, ◌++◌, List, Option, pos, IfOk, OnOk, Some};
ghost use Rattle.ev_types.specs.Set.{event_at};
ghost use Rattle.ev_types.specs.declared.event.Attr.{Attr as OneAttr};
ghost use Rattle.ev_types.specs.declared.event.Event.{Event as OneEvent};
ghost use Rattle.packed_event.specs.Reading.{NamesRead, NumbersRead, attribute_part, int64_part, names_part, numbers_part, optional, packed_in, repeated, required, text_part, ttl_part};
ghost use Rattle.packed_event.specs.Unpacking.{with_names, with_numbers};
ghost use Rattle.packed_event.specs.declared.places.Places.{Places};

use crate::attribute::attribute_at;
use crate::body::{after_tag, optional_text, owned, owned_option, text};
use crate::names::{DESCRIPTION, HOST, SERVICE, STATE, required_time};
use crate::numbers::{numbers_at, optional_ttl};
use crate::packed::PackedEvent;
use crate::packed_ref::PackedRef;
use crate::repeated::{ATTRIBUTES, TAGS};
use ev_types::{Attrs, Event, Memory, Tags, Text};
use std::alloc::Global;

impl PackedEvent {
    /// The event, which owns its parts.
    pub fn unpack(&self, alloc: Global) -> Result<Event, Memory>
        ensures { IfOk result (λ event. event ≡ self.now) }
    {
        let mut event = Event::at(alloc, 0);
        self.unpack_into(alloc, &mut event)?;
        Ok(event)
    }

    /// Makes an event that owns its parts this one. It uses the memory of that event's lists. After `Memory` what is
    /// left in `event` is not specified.
    pub fn unpack_into(&self, alloc: Global, event: &mut Event) -> Result<(), Memory>
        ensures { OnOk result (event.new ≡ self.now) }
    {
        self.as_ref().unpack_into(alloc, event)
    }
}

impl PackedRef<'_> {
    /// Makes an event that owns its parts this one. It uses the memory of that event's lists, and takes none for a
    /// text of at most 24 bytes. After `Memory` what is left in `event` is not specified.
    pub fn unpack_into(&self, alloc: Global, event: &mut Event) -> Result<(), Memory>
        ensures { OnOk result (event.new ≡ self.now) }
    {
        event.clear(alloc, 0);
        read_event(alloc, self.bytes(), event)
    }
}

/// Reads an event into one that is cleared.
fn read_event(alloc: Global, bytes: &[u8], event: &mut Event) -> Result<(), Memory>
    requires { event.old ≡ event_at (pos 0) }
    ensures { (read : Places × OneEvent) → packed_in bytes.now ≡ Some read
        → OnOk result (event.new ≡ read.1) }
{
    let after_names = read_names(alloc, bytes, event)?;
    let after_tags = read_tags(alloc, after_names, &mut event.tags)?;
    let after_ttl = read_ttl(after_tags, &mut event.ttl);
    let numbers = read_attributes(alloc, after_ttl, &mut event.attributes)?;
    read_numbers(numbers, event);
    Ok(())
}

/// Reads the time and the texts at the start of an event, and gives the bytes after them.
fn read_names<'a>(alloc: Global, bytes: &'a [u8], event: &mut Event) -> Result<&'a [u8], Memory>
    ensures { (total : ℕ) (read : NamesRead × List ℕ) → names_part total bytes.now ≡ Some read
        → IfOk result (λ rest. (rest.now ≡ read.1) × (event.new ≡ with_names event.old read.0)) }
{
    let after_time = read_time(bytes, &mut event.time);
    let after_state = read_text(alloc, STATE, after_time, &mut event.state)?;
    let after_service = read_text(alloc, SERVICE, after_state, &mut event.service)?;
    let after_host = read_text(alloc, HOST, after_service, &mut event.host)?;
    let rest = read_text(alloc, DESCRIPTION, after_host, &mut event.description)?;
    Ok(rest)
}

/// Reads the time at the start of an event, and gives the bytes after it.
#[inline]
fn read_time<'a>(bytes: &'a [u8], time: &mut i64) -> &'a [u8]
    ensures { (read : ℤ × List ℕ) → required 8 int64_part bytes.now ≡ Some read
        → (result.now ≡ read.1) × (time.new ≡ read.0) }
{
    match required_time(bytes) {
        Some((value, rest)) => {
            *time = value;
            rest
        }
        None => bytes,
    }
}

/// Reads the text with this tag, if the bytes begin with it, and gives the bytes after it.
#[inline]
fn read_text<'a>(
    alloc: Global,
    tag: u8,
    bytes: &'a [u8],
    field: &mut Option<Text>,
) -> Result<&'a [u8], Memory>
    ensures { (read : Option (List ℕ) × List ℕ) → optional tag text_part bytes.now ≡ Some read
        → IfOk result (λ rest. (rest.now ≡ read.1) × (field.new ≡ read.0)) }
{
    let Some((text, rest)) = optional_text(tag, bytes) else {
        return Ok(bytes);
    };
    *field = owned_option(alloc, text)?;
    Ok(rest)
}

/// Reads the tags at the start of the bytes, adds them to the others, and gives the bytes after them.
fn read_tags<'a>(alloc: Global, bytes: &'a [u8], tags: &mut Tags) -> Result<&'a [u8], Memory>
    ensures { (read : List (List ℕ) × List ℕ) → repeated 58 text_part bytes.now ≡ Some read
        → IfOk result (λ rest. (rest.now ≡ read.1) × (tags.new ≡ tags.old ++ read.0)) }
{
    let mut rest = bytes;
    'each: while let Some(tag) = after_tag(TAGS, rest) {
        let Some((tag, after)) = text(tag) else {
            return Ok(rest);
        };
        tags.push(alloc, owned(alloc, tag)?)?;
        rest = after;
    }
    Ok(rest)
}

/// Reads the ttl, if the bytes begin with it, and gives the bytes after it.
#[inline]
fn read_ttl<'a>(bytes: &'a [u8], ttl: &mut Option<u32>) -> &'a [u8]
    ensures { (read : Option ℕ × List ℕ) → optional 69 ttl_part bytes.now ≡ Some read
        → (result.now ≡ read.1) × (ttl.new ≡ read.0) }
{
    match optional_ttl(bytes) {
        Some((value, rest)) => {
            *ttl = value;
            rest
        }
        None => bytes,
    }
}

/// Reads the attributes at the start of the bytes, adds them to the others, and gives the bytes after them.
fn read_attributes<'a>(
    alloc: Global,
    bytes: &'a [u8],
    attributes: &mut Attrs,
) -> Result<&'a [u8], Memory>
    ensures { (read : List OneAttr × List ℕ) → repeated 74 attribute_part bytes.now ≡ Some read
        → IfOk result (λ rest. (rest.now ≡ read.1) × (attributes.new ≡ attributes.old ++ read.0)) }
{
    let mut rest = bytes;
    'each: while let Some(attribute) = after_tag(ATTRIBUTES, rest) {
        let Some((parts, after)) = attribute_at(attribute) else {
            return Ok(rest);
        };
        attributes.push(alloc, parts.owned(alloc)?)?;
        rest = after;
    }
    Ok(rest)
}

/// Reads the numbers that end an event.
fn read_numbers(bytes: &[u8], event: &mut Event)
    ensures { (read : NumbersRead × List ℕ) → numbers_part event.old.time bytes.now ≡ Some read
        → event.new ≡ with_numbers event.old read.0 }
{
    let Some((numbers, _)) = numbers_at(event.time, bytes) else {
        return;
    };
    event.time_micros = numbers.micros;
    event.metric = numbers.metric;
    event.raw_d = numbers.raw_d;
    event.raw_f = numbers.raw_f;
}
