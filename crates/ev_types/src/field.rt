ghost use Rattle.std.specs.Prelude.{◌≡◌, ◌↔◌, IfOk, IsTrue, option_copied};
ghost use Rattle.ev_types.specs.Value.{number_of, text_of, same_value, referred};
ghost use Rattle.ev_types.specs.Field.{field_value, text_value, number_value, attribute_text};

use crate::value::ValueRef;
use crate::{Attr, Event, Items, Memory, Text, Value};
use std::alloc::Global;

/// A field of an event, by its name.
#[derive(Debug, PartialEq, Eq)]
pub enum Field {
    Host,
    Service,
    State,
    Description,
    Time,
    Ttl,
    Metric,
    /// The attributes with this key, of which the last one counts.
    Attribute(Text),
}

impl Drop for Field {
    fn drop(self) {
        match self {
            Field::Host => {}
            Field::Service => {}
            Field::State => {}
            Field::Description => {}
            Field::Time => {}
            Field::Ttl => {}
            Field::Metric => {}
            Field::Attribute(_key) => {}
        }
    }
}

/// A list of fields, in the order in which they were named.
pub type Fields = Items<Field>;

impl Field {
    /// An equal field, in memory of its own.
    pub fn copy(&self, alloc: Global) -> Result<Field, Memory>
        ensures { IfOk result (λ field. field ≡ self.now) }
    {
        Ok(match self {
            Field::Host => Field::Host,
            Field::Service => Field::Service,
            Field::State => Field::State,
            Field::Description => Field::Description,
            Field::Time => Field::Time,
            Field::Ttl => Field::Ttl,
            Field::Metric => Field::Metric,
            Field::Attribute(key) => Field::Attribute(key.copy(alloc)?),
        })
    }
}

/// The number that the event holds in the field, or `None` where it holds none. It takes no memory.
pub fn field_number(event: &Event, field: &Field) -> Option<i64>
    ensures { result ≡ number_of (field_value event.now field.now) }
{
    match lend_field(event, field) {
        ValueRef::Number(number) => Some(number),
        ValueRef::Nil | ValueRef::Text(_) => None,
    }
}

/// The text that the event holds in the field, or `None` where it holds none. It takes no memory.
pub fn field_text<'a>(event: &'a Event, field: &Field) -> Option<&'a Text>
    ensures { option_copied result ≡ text_of (field_value event.now field.now) }
{
    match lend_field(event, field) {
        ValueRef::Text(text) => Some(text),
        ValueRef::Nil | ValueRef::Number(_) => None,
    }
}

/// Whether the event holds this value in the field; an absent field holds nil. It takes no memory.
pub fn field_is(event: &Event, field: &Field, value: &Value) -> bool
    ensures test { result ≡ same_value (field_value event.now field.now) value.now }
    ensures same { IsTrue result ↔ (field_value event.now field.now ≡ value.now) }
{
    lend_field(event, field).is(value.lend())
}

/// Whether both events hold the same value in the field. It takes no memory.
pub fn same_field(a: &Event, b: &Event, field: &Field) -> bool
    ensures test { result ≡ same_value (field_value a.now field.now)
        (field_value b.now field.now) }
    ensures same { IsTrue result ↔ (field_value a.now field.now ≡ field_value b.now field.now) }
{
    lend_field(a, field).is(lend_field(b, field))
}

/// What the event holds in the field.
pub(crate) fn lend_field<'a>(event: &'a Event, field: &Field) -> ValueRef<'a>
    ensures { referred result ≡ field_value event.now field.now }
{
    match field {
        Field::Host => lend_text(event.host.as_ref()),
        Field::Service => lend_text(event.service.as_ref()),
        Field::State => lend_text(event.state.as_ref()),
        Field::Description => lend_text(event.description.as_ref()),
        Field::Time => ValueRef::Number(event.time),
        Field::Ttl => lend_number(event.ttl.map(i64::from)),
        Field::Metric => lend_number(event.metric),
        Field::Attribute(key) => lend_text(last_value(event.attributes.as_slice(), key)),
    }
}

fn lend_text(text: Option<&Text>) -> ValueRef<'_>
    ensures { referred result ≡ text_value (option_copied text.entry) }
{
    match text {
        Some(text) => ValueRef::Text(text),
        None => ValueRef::Nil,
    }
}

fn lend_number(number: Option<i64>) -> ValueRef<'static>
    ensures { referred result ≡ number_value number }
{
    match number {
        Some(number) => ValueRef::Number(number),
        None => ValueRef::Nil,
    }
}

// The value of the last attribute with this key.
pub(crate) fn last_value<'a>(attributes: &'a [Attr], key: &Text) -> Option<&'a Text>
    ensures { option_copied result ≡ attribute_text key.now attributes.now }
{
    let mut earlier = attributes;
    while let Some((attribute, front)) = earlier.split_last() {
        if attribute.key == *key {
            return attribute.value.as_ref();
        }
        earlier = front;
    }
    None
}
