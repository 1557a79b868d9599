//! The fields of a packed event that are read from its bytes each time that they are asked for.

ghost use Rattle.std.specs.Prelude.{◌≡◌, option_copied, IfSome};
ghost use Rattle.std.specs.Option.{option_and_then};
ghost use Rattle.std.specs.Str.{IsUtf8};
ghost use Rattle.ev_types.specs.Field.{attribute_text};
ghost use Rattle.ev_types.specs.Set.{has_text};
ghost use Rattle.packed_event.specs.Fields.{attributes_start, description_part, metric_part, state_part};
ghost use Rattle.packed_event.specs.Reading.{Gives};

use crate::body::optional_counted;
use crate::names::{DESCRIPTION, HOST, SERVICE, STATE, required_time};
use crate::numbers::{after_micros, after_ttl, optional_metric};
use crate::packed::PackedEvent;
use crate::packed_ref::PackedRef;
use crate::places::bytes_from;
use crate::repeated::{ATTRIBUTES, TAGS, after_all, has_tag, last_value};
use ev_types::{EventFields, Field, Text};
use std::str::from_utf8_unchecked;

impl<'a> PackedRef<'a> {
    /// Its state.
    pub fn state(&self) -> Option<&'a str>
        ensures { option_copied result ≡ self.now.state }
    {
        lent(state_at(self.bytes))
    }

    /// Its description.
    pub fn description(&self) -> Option<&'a str>
        ensures { option_copied result ≡ self.now.description }
    {
        lent(description_at(self.bytes))
    }

    /// Its metric.
    pub fn metric(&self) -> Option<i64>
        ensures { result ≡ self.now.metric }
    {
        let tags = bytes_from(self.bytes, self.places.tags);
        match metric_at(tags) {
            Some(metric) => metric,
            None => None,
        }
    }

    /// What its last attribute with this key holds.
    pub fn attribute(&self, key: &Text) -> Option<&'a str>
        ensures { option_copied result ≡ attribute_text key.now self.now.attributes }
    {
        let tags = bytes_from(self.bytes, self.places.tags);
        match attributes_at(tags) {
            Some(attributes) => lent(Some(last_value(attributes, key.as_bytes()))),
            None => None,
        }
    }

    /// Whether the tag is one of its tags.
    pub fn has_tag(&self, tag: &Text) -> bool
        ensures { result ≡ has_text tag.now self.now.tags }
    {
        let tags = bytes_from(self.bytes, self.places.tags);
        has_tag(tags, tag.as_bytes())
    }
}

impl PackedEvent {
    /// Its state.
    pub fn state(&self) -> Option<&str>
        ensures { option_copied result ≡ self.now.state }
    {
        self.as_ref().state()
    }

    /// Its description.
    pub fn description(&self) -> Option<&str>
        ensures { option_copied result ≡ self.now.description }
    {
        self.as_ref().description()
    }

    /// Its metric.
    pub fn metric(&self) -> Option<i64>
        ensures { result ≡ self.now.metric }
    {
        self.as_ref().metric()
    }

    /// What its last attribute with this key holds.
    pub fn attribute(&self, key: &Text) -> Option<&str>
        ensures { option_copied result ≡ attribute_text key.now self.now.attributes }
    {
        self.as_ref().attribute(key)
    }

    /// Whether the tag is one of its tags.
    pub fn has_tag(&self, tag: &Text) -> bool
        ensures { result ≡ has_text tag.now self.now.tags }
    {
        self.as_ref().has_tag(tag)
    }
}

impl EventFields for PackedRef<'_> {
    ghost event = { λ event. event };

    fn text_in(&self, field: &Field) -> Option<&str> {
        match field {
            Field::Host => self.host(),
            Field::Service => self.service(),
            Field::State => self.state(),
            Field::Description => self.description(),
            Field::Attribute(key) => self.attribute(key),
            Field::Time | Field::Ttl | Field::Metric => None,
        }
    }

    fn number_in(&self, field: &Field) -> Option<i64> {
        match field {
            Field::Time => Some(self.time()),
            Field::Ttl => self.ttl().map(i64::from),
            Field::Metric => self.metric(),
            Field::Host
            | Field::Service
            | Field::State
            | Field::Description
            | Field::Attribute(_) => None,
        }
    }

    fn is_tagged(&self, tag: &Text) -> bool {
        self.has_tag(tag)
    }
}

impl EventFields for PackedEvent {
    ghost event = { λ event. event };

    fn text_in(&self, field: &Field) -> Option<&str> {
        match field {
            Field::Host => self.host(),
            Field::Service => self.service(),
            Field::State => self.state(),
            Field::Description => self.description(),
            Field::Attribute(key) => self.attribute(key),
            Field::Time | Field::Ttl | Field::Metric => None,
        }
    }

    fn number_in(&self, field: &Field) -> Option<i64> {
        self.as_ref().number_in(field)
    }

    fn is_tagged(&self, tag: &Text) -> bool {
        self.as_ref().has_tag(tag)
    }
}

/// The text that was read, if there is one.
#[inline]
fn lent(text: Option<Option<&[u8]>>) -> Option<&str>
    requires { IfSome text (λ text. IfSome text (λ text. IsUtf8 text.now)) }
    ensures { option_copied result ≡ option_and_then (λ text. option_copied text) text.entry }
{
    match text {
        Some(Some(text)) => Some(unsafe { from_utf8_unchecked(text) }),
        _ => None,
    }
}

// Each of the following reads bytes that are known to be of an event, and tests no text. `None`: they are not.

/// The state.
#[tactic(auto, unfolding(crate::specs::Fields::state_part))]
fn state_at(bytes: &[u8]) -> Option<Option<&[u8]>>
    ensures { Gives (λ text. option_copied text) result (state_part bytes.now) }
{
    let (_, rest) = required_time(bytes)?;
    let (state, _) = optional_counted(STATE, rest)?;
    Some(state)
}

/// The description.
#[tactic(auto, unfolding(crate::specs::Fields::description_part))]
fn description_at(bytes: &[u8]) -> Option<Option<&[u8]>>
    ensures { Gives (λ text. option_copied text) result (description_part bytes.now) }
{
    let (_, rest) = required_time(bytes)?;
    let (_, rest) = optional_counted(STATE, rest)?;
    let (_, rest) = optional_counted(SERVICE, rest)?;
    let (_, rest) = optional_counted(HOST, rest)?;
    let (description, _) = optional_counted(DESCRIPTION, rest)?;
    Some(description)
}

/// The bytes that begin with the attributes, of those that begin with the tags.
#[tactic(auto, unfolding(crate::specs::Fields::attributes_start))]
#[inline]
fn attributes_at(tags: &[u8]) -> Option<&[u8]>
    ensures { Gives (λ attributes. attributes.now) result (attributes_start tags.now) }
{
    let rest = after_all(TAGS, tags)?;
    after_ttl(rest)
}

/// The metric, from the bytes that begin with the tags.
#[tactic(auto, unfolding(crate::specs::Fields::metric_part))]
fn metric_at(tags: &[u8]) -> Option<Option<i64>>
    ensures { Gives (λ metric. metric) result (metric_part tags.now) }
{
    let rest = after_all(TAGS, tags)?;
    let rest = after_ttl(rest)?;
    let rest = after_all(ATTRIBUTES, rest)?;
    let rest = after_micros(rest)?;
    let (metric, _) = optional_metric(rest)?;
    Some(metric)
}
