//! Events that are kept as their bytes.

ghost use Rattle.std.specs.Prelude.{◌≡◌, ◌↔◌, ◌+◌, ◌^◌, ◌<◌, ◌≤◌, [], ◌∷◌, ◌++◌, length, option_copied, IfOk, IsOk, IsTrue, OnErr, OnOk};
ghost use Rattle.list_laws.specs.Prefix.{IsPrefix};
ghost use Rattle.ev_types.specs.Expiry.{is_expired, ends_key};
ghost use Rattle.riemann_msg.specs.ReadBack.{IsWellFormedEvent};
ghost use Rattle.riemann_msg.specs.Reply.{found};
ghost use Rattle.riemann_msg.specs.Spelling.{event_content, repeated, spelled, spelling};
ghost use Rattle.packed_event.specs.Kept.{bytes_of};

use crate::packed_ref::PackedRef;
use crate::places::Places;
use ev_types::{Blob, DEFAULT_TTL, Memory};
use pb_wire::{PutBody, put_field, varint_len};
use std::alloc::Global;
use std::marker::Model;

/// The number of a message's field that holds an event.
const EVENTS: u32 = 6;

/// An event, kept as the bytes that this server writes for it, which are less than 4 GiB. Contracts see the event.
pub struct PackedEvent {
    bytes: Vec<u8>,
    places: Places,
}

impl Drop for PackedEvent {
    fn drop(self) {
        let PackedEvent {
            bytes: _bytes,
            places: _places,
        } = self;
    }
}

impl Model for PackedEvent {
    ghost use Rattle.ev_types.specs.declared.event.Event.{Event};
    ghost use Rattle.packed_event.specs.Kept.{event_in, IsKept};

    ghost Value = { Event };

    ghost view = { λ packed. event_in packed.bytes.items };

    ghost invariant = { λ packed. IsKept packed.bytes.items packed.places };
}

impl PackedEvent {
    /// An equal event, with its bytes in memory of its own.
    pub fn copy_of(alloc: Global, event: &PackedRef<'_>) -> Result<PackedEvent, Memory>
        ensures { IfOk result (λ packed. packed ≡ event.now) }
    {
        let bytes = Vec::from_slice(alloc, event.bytes())?;
        let places = event.places();
        Ok(PackedEvent { bytes, places })
    }

    /// Makes it an equal event. It takes memory only if the other's bytes are more than those that it has. `Memory`:
    /// out of memory, and nothing has changed.
    #[inline]
    pub fn become_copy(&mut self, event: &PackedRef<'_>) -> Result<(), Memory>
        ensures ok { OnOk result (self.new ≡ event.now) }
        ensures err { OnErr result (self.new ≡ self.old) }
        ensures fits { length (bytes_of event.now) ≤ length (bytes_of self.old) → IsOk result }
    {
        overwrite(&mut self.bytes, event.bytes())?;
        self.places = event.places();
        Ok(())
    }

    /// The same event, lent.
    #[inline]
    pub fn as_ref(&self) -> PackedRef<'_>
        ensures { result ≡ self.now }
    {
        PackedRef::at(self.bytes.as_slice(), self.places)
    }

    /// The bytes that this server writes for it.
    #[inline]
    pub fn bytes(&self) -> &[u8]
        ensures bytes { result.now ≡ bytes_of self.now }
        ensures few { length result.now < 2 ^ 32 }
        ensures well_formed { IsWellFormedEvent self.now }
    {
        self.bytes.as_slice()
    }

    /// Its host.
    #[inline]
    pub fn host(&self) -> Option<&str>
        ensures { option_copied result ≡ self.now.host }
    {
        self.as_ref().host()
    }

    /// Its service.
    #[inline]
    pub fn service(&self) -> Option<&str>
        ensures { option_copied result ≡ self.now.service }
    {
        self.as_ref().service()
    }

    /// When it was observed, in seconds since 1970.
    #[inline]
    pub fn time(&self) -> i64
        ensures { result ≡ self.now.time }
    {
        self.places.time
    }

    /// How many seconds after its time it expires.
    #[inline]
    pub fn ttl(&self) -> Option<u32>
        ensures { result ≡ self.now.ttl }
    {
        self.places.ttl
    }

    /// Whether its state is "expired".
    #[inline]
    pub fn ends_key(&self) -> bool
        ensures { result ≡ ends_key self.now }
    {
        self.places.ends_key
    }

    /// Whether it has expired at the moment `t`, in seconds since 1970, at most 2^40.
    #[inline]
    pub fn is_expired(&self, t: u64) -> bool
        requires { t ≤ 2 ^ 40 }
        ensures { result ≡ is_expired t self.now }
    {
        let ttl = self.places.ttl.unwrap_or(DEFAULT_TTL);
        let age = i128::from(t) - i128::from(self.places.time);
        self.places.ends_key || age > i128::from(ttl)
    }

    /// How many bytes it adds to a reply, with its tag and its length. A reply with no events has 2 bytes.
    #[inline]
    pub fn reply_len(&self) -> usize
        ensures { 2 + result ≡ length (spelling (found (self.now ∷ []))) }
    {
        let len = self.bytes().len();
        1 + varint_len(len as u64) + len
    }

    /// Appends it to a reply, with its tag and its length. If memory runs out, `out` still begins with what it had.
    pub fn put_into(&self, alloc: Global, out: &mut Blob) -> Result<(), Memory>
        ensures ok { OnOk result (out.new
            ≡ out.old ++ spelled (repeated 6 event_content (self.now ∷ []))) }
        ensures err { OnErr result (IsPrefix out.old out.new) }
    {
        put_field(alloc, out, EVENTS, PutBody::Bytes(self.bytes()))
    }

    /// Whether the other one is the same event, which it is where their bytes are the same.
    pub fn is_same(&self, other: &PackedEvent) -> bool
        ensures { IsTrue result ↔ (self.now ≡ other.now) }
    {
        self.bytes() == other.bytes()
    }
}

/// Makes the block hold the bytes. It takes memory only if it is too small, and if that runs out, it stays as it was.
#[inline]
fn overwrite(block: &mut Vec<u8>, bytes: &[u8]) -> Result<(), Memory>
    ensures ok { OnOk result (block.new.items ≡ bytes.now) }
    ensures err { OnErr result (block.new.items ≡ block.old.items) }
    ensures fits { length bytes.now ≤ length block.old.items → IsOk result }
{
    // The events of a key mostly have as many bytes as the one before.
    if block.len() != bytes.len() {
        block.reserve_exact(bytes.len().saturating_sub(block.len()))?;
        block.resize(bytes.len(), 0)?;
    }
    block.copy_from_slice(bytes);
    Ok(())
}
