ghost use Rattle.std.specs.Prelude.{◌≡◌, ◌≤◌, ◌^◌, ◌++◌, IfOk, OnOk, Some};
ghost use Rattle.ev_types.specs.Expiry.{ends_key, is_late, is_expired};
ghost use Rattle.ev_types.specs.Set.{event_at, has_text};

use crate::{Items, Memory, Text};
use std::alloc::Global;

/// After how many seconds an event without a ttl expires.
pub const DEFAULT_TTL: u32 = 60;

/// One observation of a host's service, as Riemann's protocol has it. Each field but the time may be absent.
pub struct Event {
    pub host: Option<Text>,
    pub service: Option<Text>,
    pub state: Option<Text>,
    pub description: Option<Text>,
    pub tags: Tags,
    /// When it was observed, in seconds since 1970.
    pub time: i64,
    /// The same in microseconds, where it was given so.
    pub time_micros: Option<i64>,
    /// How many seconds after its time it expires.
    pub ttl: Option<u32>,
    pub metric: Option<i64>,
    /// The bits of a metric that came as a binary64 number. Nothing reads them as a number.
    pub raw_d: Option<u64>,
    /// The bits of a metric that came as a binary32 number. Nothing reads them as a number.
    pub raw_f: Option<u32>,
    pub attributes: Attrs,
}

impl Drop for Event {
    fn drop(self) {
        let Event {
            host: _host,
            service: _service,
            state: _state,
            description: _description,
            tags: _tags,
            time: _time,
            time_micros: _time_micros,
            ttl: _ttl,
            metric: _metric,
            raw_d: _raw_d,
            raw_f: _raw_f,
            attributes: _attributes,
        } = self;
    }
}

/// A list of events, in the order in which they came.
pub type Events = Items<Event>;

/// A list of tags, in the order in which they came.
pub type Tags = Items<Text>;

/// A list of attributes, in the order in which they came.
pub type Attrs = Items<Attr>;

/// A field of an event that the protocol does not name.
pub struct Attr {
    pub key: Text,
    pub value: Option<Text>,
}

impl Drop for Attr {
    fn drop(self) {
        let Attr {
            key: _key,
            value: _value,
        } = self;
    }
}

impl Event {
    /// An event that holds nothing but its time, in seconds since 1970. It takes no memory.
    pub fn at(alloc: Global, time: i64) -> Event
        ensures { result ≡ event_at time }
    {
        Event {
            host: None,
            service: None,
            state: None,
            description: None,
            tags: Tags::fresh(alloc),
            time,
            time_micros: None,
            ttl: None,
            metric: None,
            raw_d: None,
            raw_f: None,
            attributes: Attrs::fresh(alloc),
        }
    }

    /// Makes it an event that holds nothing but its time, in seconds since 1970. Each of its lists of tags and
    /// attributes keeps its memory if that is for at most 16 items.
    pub fn clear(&mut self, alloc: Global, time: i64)
        ensures { self.new ≡ event_at time }
    {
        self.host = None;
        self.service = None;
        self.state = None;
        self.description = None;
        self.tags.clear(alloc);
        self.time = time;
        self.time_micros = None;
        self.ttl = None;
        self.metric = None;
        self.raw_d = None;
        self.raw_f = None;
        self.attributes.clear(alloc);
    }

    /// An equal event, in memory of its own.
    pub fn copy(&self, alloc: Global) -> Result<Event, Memory>
        ensures { IfOk result (λ event. event ≡ self.now) }
    {
        let mut copied = Event::at(alloc, self.time);
        self.copy_into(alloc, &mut copied)?;
        Ok(copied)
    }

    // Makes an event of the same time equal to this one.
    fn copy_into(&self, alloc: Global, copied: &mut Event) -> Result<(), Memory>
        requires { copied.old.time ≡ self.now.time }
        ensures { OnOk result (copied.new ≡ self.now) }
    {
        copied.time_micros = self.time_micros;
        copied.ttl = self.ttl;
        copied.metric = self.metric;
        copied.raw_d = self.raw_d;
        copied.raw_f = self.raw_f;
        copied.host = copy_option(alloc, &self.host)?;
        copied.service = copy_option(alloc, &self.service)?;
        copied.state = copy_option(alloc, &self.state)?;
        copied.description = copy_option(alloc, &self.description)?;
        copied.tags = copy_tags(alloc, &self.tags)?;
        copied.attributes = copy_attributes(alloc, &self.attributes)?;
        Ok(())
    }

    /// Whether it has expired at the moment `t`, in seconds since 1970, at most 2^40: its state is "expired", or more
    /// seconds than its ttl, or 60 where it has none, have passed since its time.
    pub fn is_expired(&self, t: u64) -> bool
        requires { t ≤ 2 ^ 40 }
        ensures { result ≡ is_expired t self.now }
    {
        self.ends_key() || self.is_late(t)
    }

    /// Whether its state is "expired".
    pub fn ends_key(&self) -> bool
        ensures { result ≡ ends_key self.now }
    {
        match &self.state {
            Some(state) => state.is(b"expired"),
            None => false,
        }
    }

    /// Whether the tag is one of its tags.
    pub fn has_tag(&self, tag: &Text) -> bool
        ensures { result ≡ has_text tag.now self.now.tags }
    {
        self.tags.as_slice().iter().any(|other| *other == *tag)
    }

    fn is_late(&self, t: u64) -> bool
        requires { t ≤ 2 ^ 40 }
        ensures { result ≡ is_late t self.now }
    {
        let ttl = self.ttl.unwrap_or(DEFAULT_TTL);
        i128::from(t) - i128::from(self.time) > i128::from(ttl)
    }
}

impl Attr {
    /// An equal attribute, in memory of its own.
    pub fn copy(&self, alloc: Global) -> Result<Attr, Memory>
        ensures { IfOk result (λ attribute. attribute ≡ self.now) }
    {
        Ok(Attr {
            key: self.key.copy(alloc)?,
            value: copy_option(alloc, &self.value)?,
        })
    }

    // The attribute of this key that holds the text.
    pub(crate) fn of(alloc: Global, key: &Text, text: &Text) -> Result<Attr, Memory>
        ensures { IfOk result (λ attribute. attribute ≡ record {
          key = key.now;
          value = Some text.now;
        }) }
    {
        Ok(Attr {
            key: key.copy(alloc)?,
            value: Some(text.copy(alloc)?),
        })
    }
}

pub(crate) fn copy_option(alloc: Global, text: &Option<Text>) -> Result<Option<Text>, Memory>
    ensures { IfOk result (λ copied. copied ≡ text.now) }
{
    match text {
        Some(text) => Ok(Some(text.copy(alloc)?)),
        None => Ok(None),
    }
}

pub(crate) fn copy_tags(alloc: Global, tags: &Tags) -> Result<Tags, Memory>
    ensures { IfOk result (λ copied. copied ≡ tags.now) }
{
    let mut copied = Tags::fresh(alloc);
    add_tags(alloc, &mut copied, tags.as_slice())?;
    Ok(copied)
}

fn add_tags(alloc: Global, copied: &mut Tags, tags: &[Text]) -> Result<(), Memory>
    ensures { OnOk result (copied.new ≡ copied.old ++ tags.now) }
{
    for tag in tags {
        copied.push(alloc, tag.copy(alloc)?)?;
    }
    Ok(())
}

fn copy_attributes(alloc: Global, attributes: &Attrs) -> Result<Attrs, Memory>
    ensures { IfOk result (λ copied. copied ≡ attributes.now) }
{
    let mut copied = Attrs::fresh(alloc);
    add_attributes(alloc, &mut copied, attributes.as_slice())?;
    Ok(copied)
}

fn add_attributes(alloc: Global, copied: &mut Attrs, attributes: &[Attr]) -> Result<(), Memory>
    ensures { OnOk result (copied.new ≡ copied.old ++ attributes.now) }
{
    for attribute in attributes {
        copied.push(alloc, attribute.copy(alloc)?)?;
    }
    Ok(())
}
