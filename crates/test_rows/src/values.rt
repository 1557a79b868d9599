//! Rows of the fields of events, their values and their keys.

use crate::events::{Named, find_event};
use crate::line::{RowFault, split_word};
use crate::reading::{read_moment, readable};
use crate::shown::{put_blank, put_event, put_events, put_shown};
use crate::spelled::read_number;
use ev_types::{
    Event, Events, Field, Fields, Item, KeepKey, KeepKeys, Key, Memory, Text, TextFault, Value,
    field_is, field_number, field_text, key_of, same_field,
};
use std::alloc::Global;
use std::fmt::Write;

/// Appends how many bytes the longest prefix has that is a text.
pub fn text_answer(alloc: Global, bytes: &[u8], line: &mut String) -> Result<(), RowFault> {
    let length = match Text::read(alloc, bytes) {
        Ok(text) => text.as_bytes().len(),
        Err(TextFault::Utf8 { place }) => place,
        Err(TextFault::Memory) => return Err(RowFault::Memory),
    };
    put_shown(line, length)
}

/// The value that the word spells: `nil`, a number, or a text in quotes.
pub fn read_value(alloc: Global, word: &str) -> Result<Value, RowFault> {
    if word == "nil" {
        return Ok(Value::Nil);
    }
    let Some(rest) = word.strip_prefix('"') else {
        return Ok(Value::Number(readable(word.parse::<i64>())?));
    };
    let chars = rest.strip_suffix('"').ok_or(RowFault::Unreadable)?;
    Ok(Value::Text(Text::from_str(alloc, chars)?))
}

fn put_value(line: &mut String, value: &Value) -> Result<(), RowFault> {
    match value {
        Value::Nil => line.push_str("nil")?,
        Value::Number(number) => write!(line, "{number}")?,
        Value::Text(text) => write!(line, "\"{}\"", text.as_str())?,
    }
    Ok(())
}

/// The field of the name, copied.
fn read_field(alloc: Global, name: &str) -> Result<Field, Memory> {
    let name = Text::from_str(alloc, name)?;
    let field = match Field::of_protocol(&name) {
        Some(field) => field,
        None => Field::Attribute(name),
    };
    field.copy(alloc)
}

/// The value that the event holds in the field.
fn held(alloc: Global, event: &Event, field: &Field) -> Result<Value, Memory> {
    match (field_number(event, field), field_text(event, field)) {
        (Some(number), _) => Ok(Value::Number(number)),
        (None, Some(text)) => Ok(Value::Text(text.copy(alloc)?)),
        (None, None) => Ok(Value::Nil),
    }
}

/// Appends the value that the named event holds in the named field, and in which it is not 0.
pub fn value_answer(
    alloc: Global,
    asked: &str,
    named: &[Named],
    line: &mut String,
) -> Result<(), RowFault> {
    let (name, field_name) = split_word(asked)?;
    let event = find_event(named, name)?;
    let field = read_field(alloc, field_name)?;
    let value = held(alloc, event, &field)?;
    put_value(line, &value)?;
    if !field_is(event, &field, &value) || field_is(event, &field, &Value::Number(0)) {
        line.push_str(", or another")?;
    }
    if field.name() != field_name {
        line.push_str(", by another name")?;
    }
    Ok(())
}

/// Appends what field the name means.
pub fn means_answer(alloc: Global, name: &str, line: &mut String) -> Result<(), RowFault> {
    match &Field::named(Text::from_str(alloc, name)?) {
        Some(Field::Attribute(key)) => write!(line, "the attribute \"{}\"", key.as_str())?,
        Some(field) => write!(line, "the field {}", field.name())?,
        None => line.push_str("none")?,
    }
    Ok(())
}

/// Appends whether two named events hold the same in the named field. Each holds the same as itself.
pub fn shares_answer(
    alloc: Global,
    asked: &str,
    named: &[Named],
    line: &mut String,
) -> Result<(), RowFault> {
    let (first, rest) = split_word(asked)?;
    let (second, field) = split_word(rest)?;
    let (first, second) = (find_event(named, first)?, find_event(named, second)?);
    let field = read_field(alloc, field)?;
    let same = same_field(first, second, &field);
    let own = same_field(first, first, &field) && same_field(second, second, &field);
    write!(line, "{same} {own}")?;
    Ok(())
}

/// The key of the named event, by the fields that are named after it.
pub fn read_key(alloc: Global, asked: &str, named: &[Named]) -> Result<Key, RowFault> {
    let (name, names) = asked.split_once(' ').unwrap_or((asked, ""));
    let event = find_event(named, name)?;
    let mut fields = Fields::fresh(alloc);
    for name in names.split_whitespace() {
        fields.push(alloc, read_field(alloc, name)?)?;
    }
    Ok(key_of(alloc, event, &fields)?)
}

/// Appends the values of a copy of the key.
pub fn key_answer(
    alloc: Global,
    asked: &str,
    named: &[Named],
    line: &mut String,
) -> Result<(), RowFault> {
    let key = read_key(alloc, asked, named)?;
    let values = key.copy(alloc)?.into_vec();
    for value in &values {
        put_blank(line)?;
        put_value(line, value)?;
    }
    Ok(())
}

/// Appends a copy of the named event.
pub fn copy_answer(
    alloc: Global,
    name: &str,
    named: &[Named],
    line: &mut String,
) -> Result<(), RowFault> {
    let event = find_event(named, name)?.copy(alloc)?;
    put_event(line, &event)
}

/// The item of copies of the named events: one alone, or a list of all.
fn read_item(alloc: Global, names: &str, named: &[Named]) -> Result<Item, RowFault> {
    let mut events = Events::fresh(alloc);
    for name in names.split(' ') {
        events.push(alloc, find_event(named, name)?.copy(alloc)?)?;
    }
    if events.len() > 1 {
        return Ok(Item::Many(events));
    }
    let mut events = events.into_vec();
    Ok(Item::One(events.pop().ok_or(RowFault::Unreadable)?))
}

/// Appends a copy of the item of the named events.
pub fn item_answer(
    alloc: Global,
    names: &str,
    named: &[Named],
    line: &mut String,
) -> Result<(), RowFault> {
    let item = read_item(alloc, names, named)?.copy(alloc)?;
    match &item {
        Item::One(event) => {
            line.push_str("one ")?;
            put_event(line, event)
        }
        Item::Many(events) => {
            line.push_str("many")?;
            put_events(line, events.as_slice())
        }
    }
}

/// `nil`, or a number of seconds.
fn read_ttl(word: &str) -> Result<Option<u32>, RowFault> {
    if word == "nil" {
        return Ok(None);
    }
    Ok(Some(read_number(word)?))
}

/// A text in quotes. Any other value is no state.
fn read_state(alloc: Global, word: &str) -> Result<Option<Text>, RowFault> {
    match &read_value(alloc, word)? {
        Value::Text(state) => Ok(Some(state.copy(alloc)?)),
        Value::Nil | Value::Number(_) => Ok(None),
    }
}

/// Appends whether an event has expired, of which a time, a ttl, a moment and a state are given.
pub fn expires_answer(alloc: Global, asked: &str, line: &mut String) -> Result<(), RowFault> {
    let (time, rest) = split_word(asked)?;
    let (ttl, rest) = split_word(rest)?;
    let (moment, state) = split_word(rest)?;
    let (time, moment) = (readable(time.parse::<i64>())?, read_moment(moment)?);
    let mut event = Event::at(alloc, time);
    event.ttl = read_ttl(ttl)?;
    event.state = read_state(alloc, state)?;
    put_shown(line, moment <= 1 << 40 && event.is_expired(moment))
}

/// Appends the named event, with a field set to a value.
pub fn set_answer(
    alloc: Global,
    asked: &str,
    named: &[Named],
    line: &mut String,
) -> Result<(), RowFault> {
    let (name, rest) = split_word(asked)?;
    let (field, value) = split_word(rest)?;
    let mut event = find_event(named, name)?.copy(alloc)?;
    let field = read_field(alloc, field)?;
    let value = read_value(alloc, value)?;
    event.set(alloc, &field, &value)?;
    put_event(line, &event)
}

/// Appends the named event, with the tags added.
pub fn tag_answer(
    alloc: Global,
    asked: &str,
    named: &[Named],
    line: &mut String,
) -> Result<(), RowFault> {
    let (name, tags) = split_word(asked)?;
    let mut event = find_event(named, name)?.copy(alloc)?;
    for tag in tags.split(' ') {
        let tag = Text::from_str(alloc, tag)?;
        event.add_tag(alloc, &tag)?;
    }
    put_event(line, &event)
}

fn read_keep_key(alloc: Global, name: &str) -> Result<KeepKey, Memory> {
    if name == "tags" {
        return Ok(KeepKey::Tags);
    }
    Ok(KeepKey::Field(read_field(alloc, name)?))
}

/// Appends the named event as it comes again at a moment, with what the names keep.
pub fn reborn_answer(
    alloc: Global,
    asked: &str,
    named: &[Named],
    line: &mut String,
) -> Result<(), RowFault> {
    let (name, rest) = split_word(asked)?;
    let (moment, names) = split_word(rest)?;
    let (event, moment) = (find_event(named, name)?, read_moment(moment)?);
    let mut keep = KeepKeys::fresh(alloc);
    for name in names.split(' ') {
        keep.push(alloc, read_keep_key(alloc, name)?)?;
    }
    let event = event.reborn(alloc, &keep, moment.min(1 << 40))?;
    put_event(line, &event)
}
