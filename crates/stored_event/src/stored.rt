ghost use Rattle.std.specs.Prelude.{◌≡◌, ◌+◌, ◌^◌, ◌≤◌, [], ◌∷◌, ◌++◌, IfOk, OnErr, OnOk};
ghost use Rattle.list_laws.specs.Prefix.{IsPrefix};
ghost use Rattle.stored_event.specs.Key.{key_lent, key_of};
ghost use Rattle.riemann_msg.specs.Spelling.{event_content, repeated, spelled};
ghost use Rattle.stored_event.specs.Stored.{reply_len};

use crate::KeyRef;
use crate::form::EventForm;
use crate::measured::MeasuredEvent;
use ev_types::{Blob, Event, EventFields, Field, Memory, Text};
use packed_event::{PackedEvent, PackedRef};
use std::alloc::Global;
use std::marker::Model;
use std::mem;

/// How an event is kept.
#[derive(Drop)]
pub(crate) enum Kept<P> {
    /// It owns its parts. It is in a box, so that the enum is no larger than a packed event.
    Owned(Box<MeasuredEvent>),
    /// It is packed.
    Packed(P),
}

/// An event in an index, which owns its parts or is packed. Contracts see the event.
pub struct Stored<P: EventForm> {
    kept: Kept<P>,
}

impl<P: EventForm> Drop for Stored<P> {
    fn drop(self) {
        let Stored { kept: _kept } = self;
    }
}

impl<P: EventForm> Model for Stored<P> {
    ghost use Rattle.ev_types.specs.declared.event.Event.{Event};
    ghost use Rattle.stored_event.specs.Kept.{event_kept};

    ghost Value = { Event };

    ghost view = { λ stored. event_kept P.event stored.kept };
}

impl<P: EventForm> EventFields for Stored<P> {
    ghost event = { λ stored. stored };

    fn text_in(&self, field: &Field) -> Option<&str> {
        match &self.kept {
            Kept::Owned(measured) => measured.event().text_in(field),
            Kept::Packed(packed) => packed.text_in(field),
        }
    }

    fn number_in(&self, field: &Field) -> Option<i64> {
        match &self.kept {
            Kept::Owned(measured) => measured.event().number_in(field),
            Kept::Packed(packed) => packed.number_in(field),
        }
    }

    fn is_tagged(&self, tag: &Text) -> bool {
        match &self.kept {
            Kept::Owned(measured) => measured.event().is_tagged(tag),
            Kept::Packed(packed) => packed.is_tagged(tag),
        }
    }
}

impl<P: EventForm> Stored<P> {
    /// An event that owns its parts.
    pub fn of_event(alloc: Global, event: Event) -> Result<Stored<P>, Memory>
        ensures { IfOk result (λ stored. stored ≡ event) }
    {
        let measured = Box::new(alloc, MeasuredEvent::of(event))?;
        Ok(Stored {
            kept: Kept::Owned(measured),
        })
    }

    /// A packed event.
    pub fn of_packed(packed: P) -> Stored<P>
        ensures { result ≡ P.event packed }
    {
        Stored {
            kept: Kept::Packed(packed),
        }
    }

    /// Its host and its service.
    #[inline]
    pub fn key(&self) -> KeyRef<'_>
        ensures { key_lent result ≡ key_of self.now }
    {
        match &self.kept {
            Kept::Owned(measured) => KeyRef::of(measured.event()),
            Kept::Packed(packed) => packed.key(),
        }
    }

    /// How many bytes it adds to a reply. `Memory`: a reply with it alone has 2^64 bytes or more, which is more than a
    /// `usize` can count.
    pub fn reply_len(&self) -> Result<usize, Memory>
        ensures ok { IfOk result (λ len. 2 + len ≡ reply_len (self.now ∷ [])) }
        ensures err { OnErr result (2 ^ 64 ≤ reply_len (self.now ∷ [])) }
    {
        match &self.kept {
            Kept::Owned(measured) => measured.reply_len(),
            Kept::Packed(packed) => packed.reply_len(),
        }
    }

    /// The same. An event that owns its parts keeps the answer until it changes.
    #[inline]
    pub fn len(&mut self) -> Result<usize, Memory>
        ensures same { self.new ≡ self.old }
        ensures len { IfOk result (λ len. 2 + len ≡ reply_len (self.old ∷ [])) }
        ensures err { OnErr result (2 ^ 64 ≤ reply_len (self.old ∷ [])) }
    {
        match &mut self.kept {
            Kept::Owned(measured) => measured.len(),
            Kept::Packed(packed) => packed.reply_len(),
        }
    }

    /// Appends it to a reply, with its tag and its length. If it owns its parts, a reply with it alone is written into
    /// `reply` first, in place of what was there. If memory runs out, `out` still begins with what it had.
    pub fn put_into(&self, alloc: Global, reply: &mut Blob, out: &mut Blob) -> Result<(), Memory>
        ensures ok { OnOk result (out.new
            ≡ out.old ++ spelled (repeated 6 event_content (self.now ∷ []))) }
        ensures err { OnErr result (IsPrefix out.old out.new) }
    {
        match &self.kept {
            Kept::Owned(measured) => measured.put_into(alloc, reply, out),
            Kept::Packed(packed) => packed.put_into(alloc, out),
        }
    }

    /// An equal event that owns its parts.
    pub fn copy(&self, alloc: Global) -> Result<Event, Memory>
        ensures { IfOk result (λ event. event ≡ self.now) }
    {
        match &self.kept {
            Kept::Owned(measured) => measured.event().copy(alloc),
            Kept::Packed(packed) => packed.unpack(alloc),
        }
    }

    /// The event, which owns its parts. That takes memory only if it was packed.
    pub fn into_event(self, alloc: Global) -> Result<Event, Memory>
        ensures { IfOk result (λ event. event ≡ self) }
    {
        let Stored { kept } = self;
        match kept {
            Kept::Owned(measured) => Ok(Box::into_inner(measured).into_event()),
            Kept::Packed(packed) => packed.unpack(alloc),
        }
    }

    /// Moves an event that owns its parts here, in place of what was here. What is left in `event` is not specified. It
    /// takes memory only if a packed event was here. `Memory`: nothing has changed here.
    #[inline]
    pub fn take_from(&mut self, alloc: Global, event: &mut Event) -> Result<(), Memory>
        ensures ok { OnOk result (self.new ≡ event.old) }
        ensures err { OnErr result (self.new ≡ self.old) }
    {
        match &mut self.kept {
            Kept::Owned(measured) => measured.swap(event),
            Kept::Packed(_) => {
                let moved = mem::replace(event, Event::at(alloc, 0));
                *self = Stored::of_event(alloc, moved)?;
            }
        }
        Ok(())
    }
}

impl Stored<MeasuredEvent> {
    /// The event where it lies.
    #[inline]
    pub fn event(&self) -> &Event
        ensures { result.now ≡ self.now }
    {
        match &self.kept {
            Kept::Owned(measured) => measured.event(),
            Kept::Packed(measured) => measured.event(),
        }
    }
}

impl Stored<PackedEvent> {
    /// Makes it equal to an event whose bytes lie elsewhere. It takes memory only if that has more bytes than any that
    /// was packed here. `Memory`: nothing has changed.
    #[inline]
    pub fn become_copy(&mut self, alloc: Global, event: &PackedRef<'_>) -> Result<(), Memory>
        ensures ok { OnOk result (self.new ≡ event.now) }
        ensures err { OnErr result (self.new ≡ self.old) }
    {
        match &mut self.kept {
            Kept::Packed(packed) => packed.become_copy(event),
            Kept::Owned(_) => {
                let packed = PackedEvent::copy_of(alloc, event)?;
                self.kept = Kept::Packed(packed);
                Ok(())
            }
        }
    }
}
