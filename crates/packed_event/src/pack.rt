//! Packing an event that owns its parts.

ghost use Rattle.std.specs.Prelude.{◌≡◌, ◌^◌, ◌≤◌, [], ◌∷◌, length, option_copied, IfErr, IfOk, IfSome, IsNone, OnErr, OnOk, Some};
ghost use Rattle.ev_types.specs.declared.event.Event.{Event as OneEvent};
ghost use Rattle.riemann_msg.specs.ReadBack.{IsWellFormedEvent};
ghost use Rattle.riemann_msg.specs.Reply.{found};
ghost use Rattle.riemann_msg.specs.Spelling.{spelling};
ghost use Rattle.packed_event.specs.Kept.{bytes_of, IsUnpackable};
ghost use Rattle.packed_event.specs.declared.pack.PackFault.TheVariants.{Memory as out_of_memory};

use crate::body::counted;
use crate::packed::PackedEvent;
use crate::packed_ref::PackedRef;
use crate::well_formed::is_well_formed;
use ev_types::{Blob, Event, Memory};
use riemann_msg::write_found;
use std::alloc::Global;
use thiserror::Error;

/// Why an event was not packed.
#[derive(Clone, Copy, Debug, PartialEq, Eq, Error)]
pub enum PackFault {
    /// No bytes represent it: no bits represent its ttl, or its microseconds are of another second.
    #[error("no bytes represent the event")]
    Unspellable,
    /// Its bytes are 4 GiB or more.
    #[error("the event has 4 GiB or more")]
    TooLong,
    /// Out of memory.
    #[error("out of memory")]
    Memory,
}

impl From<Memory> for PackFault {
    ghost from_gives = { λ _ fault. fault ≡ out_of_memory };

    fn from(_memory: Memory) -> PackFault {
        PackFault::Memory
    }
}

impl PackedEvent {
    /// The event, spelled as this server writes it.
    pub fn pack(alloc: Global, event: &Event) -> Result<PackedEvent, PackFault>
        ensures ok { IfOk result (λ packed. packed ≡ event.now) }
        ensures fault { IfErr result (IsUnpackable event.now) }
    {
        if !is_well_formed(event) {
            return Err(PackFault::Unspellable);
        }
        let reply = reply_with(alloc, event)?;
        let Some(lent) = event_in_reply(reply.as_slice()) else {
            return Err(PackFault::TooLong);
        };
        Ok(PackedEvent::copy_of(alloc, &lent)?)
    }

    /// Makes it the event, spelled as this server writes it. After a fault nothing has changed.
    pub fn pack_again(&mut self, alloc: Global, event: &Event) -> Result<(), PackFault>
        ensures ok { OnOk result (self.new ≡ event.now) }
        ensures fault { IfErr result (IsUnpackable event.now) }
        ensures err { OnErr result (self.new ≡ self.old) }
    {
        if !is_well_formed(event) {
            return Err(PackFault::Unspellable);
        }
        let reply = reply_with(alloc, event)?;
        let Some(lent) = event_in_reply(reply.as_slice()) else {
            return Err(PackFault::TooLong);
        };
        self.become_copy(&lent)?;
        Ok(())
    }
}

/// The reply that has the event alone.
fn reply_with(alloc: Global, event: &Event) -> Result<Blob, Memory>
    ensures { IfOk result (λ reply. reply ≡ spelling (found (event.now ∷ []))) }
{
    let mut reply = Blob::fresh(alloc);
    write_found(alloc, &[event], &mut reply)?;
    Ok(reply)
}

/// The event that a reply has alone. `None`: its bytes are 4 GiB or more.
fn event_in_reply(reply: &[u8]) -> Option<PackedRef<'_>>
    ensures event { (event : OneEvent) → IsWellFormedEvent event
        → reply.now ≡ spelling (found (event ∷ []))
        → IfSome result (λ read. read ≡ event) }
    ensures long { (event : OneEvent) → IsWellFormedEvent event
        → reply.now ≡ spelling (found (event ∷ []))
        → IsNone result → 2 ^ 32 ≤ length (bytes_of event) }
{
    let bytes = bytes_in_reply(reply)?;
    PackedRef::of(bytes)
}

/// The bytes of the event that a reply has alone. The flag before it has two bytes, and its tag has one.
fn bytes_in_reply(reply: &[u8]) -> Option<&[u8]>
    ensures { (event : OneEvent) → reply.now ≡ spelling (found (event ∷ []))
        → option_copied result ≡ Some (bytes_of event) }
{
    let (_, rest) = reply.split_first_chunk::<3>()?;
    let (bytes, _) = counted(rest)?;
    Some(bytes)
}
