//! Where the parts of an event are in its bytes.

ghost use Rattle.std.specs.Prelude.{◌≡◌, ℕ, ◌^◌, ◌<◌, ◌≤◌, None, drop, option_copied, pos, length, IfSome, IsSome};
ghost use Rattle.std.specs.Option.{option_map};
ghost use Rattle.std.specs.Str.{IsUtf8};
ghost use Rattle.ev_types.specs.declared.event.Event.{Event};
ghost use Rattle.riemann_msg.specs.Fault.{event_fault};
ghost use Rattle.riemann_msg.specs.ReadBack.{IsWellFormedEvent};
ghost use Rattle.riemann_msg.specs.Spelling.{event_values, spelled};
ghost use Rattle.riemann_msg.specs.Value.{event_of};
ghost use Rattle.packed_event.specs.Kept.{IsKept};
ghost use Rattle.packed_event.specs.Packed.{IsPacked, LiesIn, text_at};
ghost use Rattle.packed_event.specs.Reading.{Gives, packed_in};

use crate::names::names_at;
use crate::numbers::{numbers_at, optional_ttl};
use crate::repeated::{after_attributes, after_tags};
use std::str::from_utf8_unchecked;

/// Where a text is in the bytes of an event.
#[derive(Clone, Copy, Debug, PartialEq, Eq)]
pub struct Span {
    /// The place of its first byte.
    pub start: u32,
    /// How many bytes it has.
    pub len: u32,
}

impl Span {
    /// The bytes at the span.
    #[inline]
    pub fn of(self, bytes: &[u8]) -> &[u8]
        requires { LiesIn bytes.now self }
        ensures { result.now ≡ text_at bytes.now self }
    {
        let start = self.start as usize;
        &bytes[start..start + self.len as usize]
    }
}

/// The text at the span, if there is one.
#[inline]
pub(crate) fn text_in(bytes: &[u8], span: Option<Span>) -> Option<&str>
    requires within { IfSome span (LiesIn bytes.now) }
    requires utf8 { IfSome span (λ span. IsUtf8 (text_at bytes.now span)) }
    ensures { option_copied result ≡ option_map (text_at bytes.now) span }
{
    let text = span?.of(bytes);
    Some(unsafe { from_utf8_unchecked(text) })
}

/// The bytes from `start` on.
#[inline]
pub(crate) fn bytes_from(bytes: &[u8], start: u32) -> &[u8]
    requires { start ≤ length bytes.now }
    ensures { result.now ≡ drop start bytes.now }
{
    &bytes[start as usize..]
}

/// Where the parts of an event are in its bytes, and what tells when it expires.
#[derive(Clone, Copy, Debug, PartialEq, Eq)]
pub struct Places {
    pub host: Option<Span>,
    pub service: Option<Span>,
    /// When it was observed, in seconds since 1970.
    pub time: i64,
    /// How many seconds after its time it expires.
    pub ttl: Option<u32>,
    /// Whether its state is "expired".
    pub ends_key: bool,
    /// The place of the first field after its texts: of its first tag, if it has any.
    pub tags: u32,
}

/// The places of an event's parts, if the bytes are exactly those that this server writes for the event. Those have the
/// fields by rising number, each in its shortest spelling. The time is there, and no field that this server does not
/// write. `None` says nothing about the event: other bytes may represent one too, and are read field by field.
pub fn places_of(bytes: &[u8]) -> Option<Places>
    // The bytes have no fault, and they are those that this server writes for the event that they are read as.
    ensures clean { IfSome result (λ places. event_fault bytes.now ≡ None) }
    ensures packed { IfSome result (λ places.
        (now : ℕ) → IsPacked bytes.now places (event_of (pos now) bytes.now)) }
    // The bytes are less than 4 GiB.
    ensures few { IfSome result (λ places. length bytes.now < 2 ^ 32) }
    // Every event is recognised by the bytes that this server writes for it, if they are less than 4 GiB.
    ensures found { (event : Event) → IsWellFormedEvent event
        → bytes.now ≡ spelled (event_values event) → length bytes.now < 2 ^ 32 → IsSome result }
{
    kept_places(bytes)
}

/// The same, for bytes that are kept with the places.
#[inline(always)]
pub(crate) fn kept_places(bytes: &[u8]) -> Option<Places>
    ensures kept { IfSome result (λ places. IsKept bytes.now places) }
    ensures found { (event : Event) → IsWellFormedEvent event
        → bytes.now ≡ spelled (event_values event) → length bytes.now < 2 ^ 32 → IsSome result }
{
    if bytes.len() > u32::MAX as usize {
        return None;
    }
    places_in(bytes)
}

/// The same, where each place fits 32 bits.
#[tactic(auto, unfolding(crate::specs::Reading::packed_in))]
#[inline(always)]
fn places_in(bytes: &[u8]) -> Option<Places>
    requires small { length bytes.now < 2 ^ 32 }
    ensures { Gives (λ places. places) result
        (option_map (λ read. read.0) (packed_in bytes.now)) }
{
    let (names, rest) = names_at(bytes)?;
    let rest = after_tags(rest)?;
    let (ttl, rest) = optional_ttl(rest)?;
    let rest = after_attributes(rest)?;
    let (_, rest) = numbers_at(names.time, rest)?;
    if !rest.is_empty() {
        return None;
    }
    Some(Places {
        host: names.host,
        service: names.service,
        time: names.time,
        ttl,
        ends_key: names.ends_key,
        tags: names.tags,
    })
}
