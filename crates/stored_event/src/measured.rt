ghost use Rattle.std.specs.Prelude.{◌≡◌, ◌+◌, ◌^◌, ◌≤◌, [], ◌∷◌, ◌++◌, drop, length, IfOk, OnErr, OnOk};
ghost use Rattle.list_laws.specs.Prefix.{IsPrefix};
ghost use Rattle.riemann_msg.specs.Spelling.{event_content, repeated, spelled};
ghost use Rattle.stored_event.specs.Stored.{reply_len};

use ev_types::{Blob, Event, EventFields, Field, Memory, Text};
use riemann_msg::{found_len, write_found};
use std::alloc::Global;
use std::marker::Model;
use std::mem;

/// How many bytes a reply has in which no events are found.
pub const EMPTY_REPLY: usize = 2;

/// An event, and how many bytes it adds to a reply, once that was asked for.
pub struct MeasuredEvent {
    // `None` if nobody asked since the event changed, or if it is 2^32 or more.
    len: Option<u32>,
    event: Event,
}

impl Drop for MeasuredEvent {
    fn drop(self) {
        let MeasuredEvent {
            len: _len,
            event: _event,
        } = self;
    }
}

impl Model for MeasuredEvent {
    ghost use Rattle.std.specs.Prelude.{◌≡◌, ◌+◌, [], ◌∷◌, IfSome};
    ghost use Rattle.ev_types.specs.declared.event.Event.{Event};
    ghost use Rattle.stored_event.specs.Stored.{reply_len};

    ghost Value = { Event };

    ghost view = { λ measured. measured.event };

    ghost invariant = { λ measured. IfSome measured.len (λ len.
        2 + len ≡ reply_len (measured.event ∷ [])) };
}

impl MeasuredEvent {
    /// The event, of which no length is known yet.
    #[inline]
    pub(crate) fn of(event: Event) -> MeasuredEvent
        ensures { result ≡ event }
    {
        MeasuredEvent { len: None, event }
    }

    #[inline]
    pub(crate) fn event(&self) -> &Event
        ensures { result.now ≡ self.now }
    {
        &self.event
    }

    pub(crate) fn into_event(self) -> Event
        ensures { result ≡ self }
    {
        let MeasuredEvent { len: _, event } = self;
        event
    }

    /// Appends the event, as a reply has it, with its tag and its length. A reply with it alone is written into `reply`,
    /// in place of what was there. If memory runs out, `out` still begins with what it had.
    pub(crate) fn put_into(
        &self,
        alloc: Global,
        reply: &mut Blob,
        out: &mut Blob,
    ) -> Result<(), Memory>
        ensures ok { OnOk result (out.new
            ≡ out.old ++ spelled (repeated 6 event_content (self.now ∷ []))) }
        ensures err { OnErr result (IsPrefix out.old out.new) }
    {
        clear(alloc, reply);
        write_found(alloc, &[&self.event], reply)?;
        out.append(alloc, after_flag(reply.as_slice()))?;
        Ok(())
    }

    /// Swaps the event with another one.
    #[inline]
    pub(crate) fn swap(&mut self, event: &mut Event)
        ensures swapped { self.new ≡ event.old }
        ensures given { event.new ≡ self.old }
    {
        self.len = None;
        mem::swap(&mut self.event, event);
    }

    /// How many bytes the event adds to a reply. `Memory`: a reply with it alone has 2^64 bytes or more, which is more
    /// than a `usize` can count.
    pub(crate) fn reply_len(&self) -> Result<usize, Memory>
        ensures ok { IfOk result (λ len. 2 + len ≡ reply_len (self.now ∷ [])) }
        ensures err { OnErr result (2 ^ 64 ≤ reply_len (self.now ∷ [])) }
    {
        match self.len {
            Some(len) => Ok(len as usize),
            None => len_of(&self.event),
        }
    }

    /// The same, which is kept until the event changes.
    pub(crate) fn len(&mut self) -> Result<usize, Memory>
        ensures same { self.new ≡ self.old }
        ensures len { IfOk result (λ len. 2 + len ≡ reply_len (self.old ∷ [])) }
        ensures err { OnErr result (2 ^ 64 ≤ reply_len (self.old ∷ [])) }
    {
        let len = self.reply_len()?;
        self.len = u32::try_from(len).ok();
        Ok(len)
    }
}

impl EventFields for MeasuredEvent {
    ghost event = { λ measured. measured };

    fn text_in(&self, field: &Field) -> Option<&str> {
        self.event.text_in(field)
    }

    fn number_in(&self, field: &Field) -> Option<i64> {
        self.event.number_in(field)
    }

    fn is_tagged(&self, tag: &Text) -> bool {
        self.event.is_tagged(tag)
    }
}

/// How many bytes the event adds to a reply, which has others beside.
#[tactic(auto, using(crate::proofs::ReplyLengths::some_len))]
fn len_of(event: &Event) -> Result<usize, Memory>
    ensures ok { IfOk result (λ len. 2 + len ≡ reply_len (event.now ∷ [])) }
    ensures err { OnErr result (2 ^ 64 ≤ reply_len (event.now ∷ [])) }
{
    Ok(found_len(&[event])? - EMPTY_REPLY)
}

/// What a reply has after its flag: its events.
fn after_flag(reply: &[u8]) -> &[u8]
    requires { 2 ≤ length reply.now }
    ensures { result.now ≡ drop 2 reply.now }
{
    &reply[EMPTY_REPLY..]
}

/// Removes the bytes, and keeps their memory.
fn clear(alloc: Global, blob: &mut Blob)
    ensures { blob.new ≡ [] }
{
    let mut bytes = mem::replace(blob, Blob::fresh(alloc)).into_vec();
    bytes.clear();
    *blob = Blob::from_vec(bytes);
}
