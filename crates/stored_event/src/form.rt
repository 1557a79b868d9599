ghost use Rattle.std.specs.Prelude.{◌≡◌, ◌+◌, ◌^◌, ◌≤◌, [], ◌∷◌, ◌++◌, IfOk, OnErr, OnOk};
ghost use Rattle.list_laws.specs.Prefix.{IsPrefix};
ghost use Rattle.stored_event.specs.Key.{key_lent, key_of};
ghost use Rattle.riemann_msg.specs.Spelling.{event_content, repeated, spelled};
ghost use Rattle.stored_event.specs.Stored.{reply_len};

use crate::KeyRef;
use crate::measured::MeasuredEvent;
use ev_types::{Blob, Event, EventFields, Memory};
use packed_event::PackedEvent;
use std::alloc::Global;

/// A form in which an index keeps events, beside those that own their parts.
pub trait EventForm: EventFields + Drop {
    /// Its host and its service.
    fn key(&self) -> KeyRef<'_>
        ensures { key_lent result ≡ key_of (Self.event self.now) };

    /// How many bytes it adds to a reply, with its tag and its length. `Memory`: a reply with it alone has 2^64 bytes or
    /// more, which is more than a `usize` can count.
    fn reply_len(&self) -> Result<usize, Memory>
        ensures ok { IfOk result (λ len. 2 + len ≡ reply_len (Self.event self.now ∷ [])) }
        ensures err { OnErr result (2 ^ 64 ≤ reply_len (Self.event self.now ∷ [])) };

    /// Appends it to a reply, with its tag and its length. If memory runs out, `out` still begins with what it had.
    fn put_into(&self, alloc: Global, out: &mut Blob) -> Result<(), Memory>
        ensures ok { OnOk result (out.new
            ≡ out.old ++ spelled (repeated 6 event_content (Self.event self.now ∷ []))) }
        ensures err { OnErr result (IsPrefix out.old out.new) };

    /// An equal event that owns its parts.
    fn unpack(&self, alloc: Global) -> Result<Event, Memory>
        ensures { IfOk result (λ event. event ≡ Self.event self.now) };
}

impl EventForm for PackedEvent {
    #[inline]
    fn key(&self) -> KeyRef<'_> {
        KeyRef::of_packed(self)
    }

    #[inline]
    fn reply_len(&self) -> Result<usize, Memory> {
        Ok(PackedEvent::reply_len(self))
    }

    fn put_into(&self, alloc: Global, out: &mut Blob) -> Result<(), Memory> {
        PackedEvent::put_into(self, alloc, out)
    }

    fn unpack(&self, alloc: Global) -> Result<Event, Memory> {
        PackedEvent::unpack(self, alloc)
    }
}

impl EventForm for MeasuredEvent {
    fn key(&self) -> KeyRef<'_> {
        KeyRef::of(self.event())
    }

    fn reply_len(&self) -> Result<usize, Memory> {
        MeasuredEvent::reply_len(self)
    }

    fn put_into(&self, alloc: Global, out: &mut Blob) -> Result<(), Memory> {
        let mut reply = Blob::fresh(alloc);
        MeasuredEvent::put_into(self, alloc, &mut reply, out)
    }

    fn unpack(&self, alloc: Global) -> Result<Event, Memory> {
        self.event().copy(alloc)
    }
}
