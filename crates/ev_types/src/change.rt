ghost use Rattle.std.specs.Prelude.{◌≡◌, ◌++◌, IfOk, IsTrue, OnOk, OnErr, option_map, nat_abs};
ghost use Rattle.ev_types.specs.Set.{all_fit, fits, fits_ttl, with_fitting, with_set, with_tag, other_attributes, attribute_of};
ghost use Rattle.ev_types.specs.Value.{number_of, text_of};

use crate::{Attr, Attrs, Event, Field, Memory, Sets, Text, Value};
use std::alloc::Global;

/// The greatest ttl that a field can be set to, in seconds: each whole number up to it is a binary32 number.
pub const MAX_TTL: i64 = 16_777_216;

impl Event {
    /// Sets the field to the value. A value that does not fit the field, as [`fits`] says, leaves the event as it is.
    ///
    /// All else stays, except that the time in microseconds is removed with the time, and the metric's other forms
    /// with the metric. An attribute that is set comes last, and those of its key before it are removed; set to nil,
    /// it has none. After `Memory` the event is as it was.
    pub fn set(&mut self, alloc: Global, field: &Field, value: &Value) -> Result<(), Memory>
        ensures ok { OnOk result (self.new ≡ with_set self.old field.now value.now) }
        ensures err { OnErr result (self.new ≡ self.old) }
    {
        if fits(field, value) {
            self.set_fitting(alloc, field, value)?;
        }
        Ok(())
    }

    fn set_fitting(&mut self, alloc: Global, field: &Field, value: &Value) -> Result<(), Memory>
        requires { IsTrue (fits field.now value.now) }
        ensures ok { OnOk result (self.new ≡ with_fitting self.old field.now value.now) }
        ensures err { OnErr result (self.new ≡ self.old) }
    {
        match field {
            Field::Host => return set_text(alloc, &mut self.host, value),
            Field::Service => return set_text(alloc, &mut self.service, value),
            Field::State => return set_text(alloc, &mut self.state, value),
            Field::Description => return set_text(alloc, &mut self.description, value),
            Field::Time => {
                self.time = number(value).unwrap_or(self.time);
                self.time_micros = None;
            }
            Field::Ttl => self.ttl = seconds(value),
            Field::Metric => {
                self.metric = number(value);
                self.raw_d = None;
                self.raw_f = None;
            }
            Field::Attribute(key) => {
                return set_attribute(alloc, &mut self.attributes, key, value);
            }
        }
        Ok(())
    }

    /// Adds the tag after those that the event has, where it is not one of them. After `Memory` the event is as it was.
    pub fn add_tag(&mut self, alloc: Global, tag: &Text) -> Result<(), Memory>
        ensures ok { OnOk result (self.new ≡ with_tag self.old tag.now) }
        ensures err { OnErr result (self.new ≡ self.old) }
    {
        if !self.has_tag(tag) {
            self.tags.push(alloc, tag.copy(alloc)?)?;
        }
        Ok(())
    }
}

/// Whether each value fits the field that it is set to.
pub fn all_fit(sets: &Sets) -> bool
    ensures { result ≡ all_fit sets.now }
{
    sets.as_slice()
        .iter()
        .all(|set| fits(&set.field, &set.value))
}

/// Whether the field can be set to the value. The time takes a number, the metric a number or nil, the ttl nil or a
/// number of seconds from 0 to [`MAX_TTL`], and each other field a text or nil.
pub fn fits(field: &Field, value: &Value) -> bool
    ensures { result ≡ fits field.now value.now }
{
    match field {
        Field::Time => matches!(value, Value::Number(_)),
        Field::Ttl => fits_ttl(value),
        Field::Metric => !matches!(value, Value::Text(_)),
        _ => !matches!(value, Value::Number(_)),
    }
}

// Whether the value is nil or a number of seconds from 0 to MAX_TTL.
fn fits_ttl(value: &Value) -> bool
    ensures { result ≡ fits_ttl value.now }
{
    match value {
        Value::Nil => true,
        Value::Number(ttl) => 0 <= *ttl && *ttl <= MAX_TTL,
        Value::Text(_) => false,
    }
}

// Sets the text to that of the value.
fn set_text(alloc: Global, text: &mut Option<Text>, value: &Value) -> Result<(), Memory>
    ensures ok { OnOk result (text.new ≡ text_of value.now) }
    ensures err { OnErr result (text.new ≡ text.old) }
{
    *text = copied_text(alloc, value)?;
    Ok(())
}

fn copied_text(alloc: Global, value: &Value) -> Result<Option<Text>, Memory>
    ensures { IfOk result (λ text. text ≡ text_of value.now) }
{
    match value {
        Value::Text(text) => Ok(Some(text.copy(alloc)?)),
        Value::Nil | Value::Number(_) => Ok(None),
    }
}

fn number(value: &Value) -> Option<i64>
    ensures { result ≡ number_of value.now }
{
    match value {
        Value::Number(number) => Some(*number),
        Value::Nil | Value::Text(_) => None,
    }
}

fn seconds(value: &Value) -> Option<u32>
    requires { IsTrue (fits_ttl value.now) }
    ensures { result ≡ option_map nat_abs (number_of value.now) }
{
    match value {
        Value::Number(number) => Some(*number as u32),
        Value::Nil | Value::Text(_) => None,
    }
}

// Leaves the attributes of other keys, and after them the one that holds the value's text.
fn set_attribute(
    alloc: Global,
    attributes: &mut Attrs,
    key: &Text,
    value: &Value,
) -> Result<(), Memory>
    ensures ok { OnOk result (attributes.new ≡ other_attributes key.now attributes.old
        ++ attribute_of key.now (text_of value.now)) }
    ensures err { OnErr result (attributes.new ≡ attributes.old) }
{
    let mut set = Attrs::fresh(alloc);
    add_set(alloc, &mut set, attributes.as_slice(), key, value)?;
    *attributes = set;
    Ok(())
}

// Adds the attributes of other keys, and after them the one that holds the value's text.
fn add_set(
    alloc: Global,
    set: &mut Attrs,
    attributes: &[Attr],
    key: &Text,
    value: &Value,
) -> Result<(), Memory>
    ensures { OnOk result (set.new ≡ set.old ++ other_attributes key.now attributes.now
        ++ attribute_of key.now (text_of value.now)) }
{
    add_others(alloc, set, attributes, key)?;
    if let Value::Text(text) = value {
        set.push(alloc, Attr::of(alloc, key, text)?)?;
    }
    Ok(())
}

// Adds the attributes of other keys.
fn add_others(
    alloc: Global,
    others: &mut Attrs,
    attributes: &[Attr],
    key: &Text,
) -> Result<(), Memory>
    ensures { OnOk result (others.new ≡ others.old ++ other_attributes key.now attributes.now) }
{
    for attribute in attributes {
        if attribute.key != *key {
            others.push(alloc, attribute.copy(alloc)?)?;
        }
    }
    Ok(())
}
