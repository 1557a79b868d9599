//! Events whose bytes lie elsewhere.

ghost use Rattle.std.specs.Prelude.{◌≡◌, ℕ, ◌^◌, ◌<◌, None, length, option_copied, pos, IfSome, IsSome};
ghost use Rattle.ev_types.specs.Expiry.{ends_key};
ghost use Rattle.ev_types.specs.declared.event.Event.{Event};
ghost use Rattle.riemann_msg.specs.Fault.{event_fault};
ghost use Rattle.riemann_msg.specs.ReadBack.{IsWellFormedEvent};
ghost use Rattle.riemann_msg.specs.Spelling.{event_values, spelled};
ghost use Rattle.riemann_msg.specs.Value.{event_of};
ghost use Rattle.packed_event.specs.Kept.{bytes_of, event_in, IsKept};

use crate::places::{Places, kept_places, text_in};
use std::marker::Model;

/// An event whose bytes lie elsewhere. They are those that this server writes for it, and less than 4 GiB. Contracts
/// see the event.
#[derive(Drop)]
pub struct PackedRef<'a> {
    pub(crate) bytes: &'a [u8],
    pub(crate) places: Places,
}

impl<'a> Model for PackedRef<'a> {
    ghost use Rattle.ev_types.specs.declared.event.Event.{Event};
    ghost use Rattle.packed_event.specs.Kept.{event_in, IsKept};

    ghost Value = { Event };

    ghost view = { λ event. event_in event.bytes.now };

    ghost invariant = { λ event. IsKept event.bytes.now event.places };
}

impl<'a> PackedRef<'a> {
    /// The event of the bytes, if they are exactly those that this server writes for it. It takes no memory. `None`
    /// says nothing about the event: other bytes may represent one too, and are read field by field.
    #[inline]
    pub fn of(bytes: &'a [u8]) -> Option<PackedRef<'a>>
        // The bytes have no fault, and they are those that this server writes for the event that they are read as.
        ensures clean { IfSome result (λ event. event_fault bytes.now ≡ None) }
        ensures event { IfSome result (λ event. (now : ℕ) → event ≡ event_of (pos now) bytes.now) }
        ensures bytes { IfSome result (λ event. bytes.now ≡ bytes_of event) }
        // The bytes are less than 4 GiB.
        ensures few { IfSome result (λ event. length bytes.now < 2 ^ 32) }
        // Every event is recognised by the bytes that this server writes for it, if they are less than 4 GiB.
        ensures found { (event : Event) → IsWellFormedEvent event
            → bytes.now ≡ spelled (event_values event) → length bytes.now < 2 ^ 32
            → IsSome result }
    {
        let places = kept_places(bytes)?;
        Some(PackedRef { bytes, places })
    }

    /// The event of bytes that are kept with these places.
    #[inline]
    pub(crate) fn at(bytes: &'a [u8], places: Places) -> PackedRef<'a>
        requires { IsKept bytes.now places }
        ensures { result ≡ event_in bytes.now }
    {
        PackedRef { bytes, places }
    }

    /// The places of its parts.
    #[inline]
    pub(crate) fn places(&self) -> Places
        ensures { IsKept (bytes_of self.now) result }
    {
        self.places
    }

    /// The bytes that this server writes for it.
    #[inline]
    pub fn bytes(&self) -> &'a [u8]
        ensures bytes { result.now ≡ bytes_of self.now }
        ensures few { length result.now < 2 ^ 32 }
        ensures well_formed { IsWellFormedEvent self.now }
    {
        self.bytes
    }

    /// Its host.
    #[inline]
    pub fn host(&self) -> Option<&'a str>
        ensures { option_copied result ≡ self.now.host }
    {
        text_in(self.bytes, self.places.host)
    }

    /// Its service.
    #[inline]
    pub fn service(&self) -> Option<&'a str>
        ensures { option_copied result ≡ self.now.service }
    {
        text_in(self.bytes, self.places.service)
    }

    /// When it was observed, in seconds since 1970.
    #[inline]
    pub fn time(&self) -> i64
        ensures { result ≡ self.now.time }
    {
        self.places.time
    }

    /// How many seconds after its time it expires.
    #[inline]
    pub fn ttl(&self) -> Option<u32>
        ensures { result ≡ self.now.ttl }
    {
        self.places.ttl
    }

    /// Whether its state is "expired".
    #[inline]
    pub fn ends_key(&self) -> bool
        ensures { result ≡ ends_key self.now }
    {
        self.places.ends_key
    }
}
