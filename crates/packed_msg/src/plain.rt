//! Whether a message is nothing but events that are spelled as this server writes them.

ghost use Rattle.std.specs.Prelude.{◌≡◌, ℕ, ◌^◌, ◌<◌, [], ◌∷◌, List, None, length, IfOk, IfSome, IsSome};
ghost use Rattle.std.specs.List.{AllByRecursion};
ghost use Rattle.ev_types.specs.declared.event.Event.{Event};
ghost use Rattle.riemann_msg.specs.Fault.{first_fault};
ghost use Rattle.riemann_msg.specs.ReadBack.{IsWellFormedEvent};
ghost use Rattle.riemann_msg.specs.Spelling.{spelling};
ghost use Rattle.riemann_msg.specs.Value.{message_of};
ghost use Rattle.packed_msg.specs.Parts.{HoldsNext, IsWritten, LiesIn};
ghost use Rattle.packed_msg.specs.Sent.{sent_of};

use ev_types::Memory;
use packed_event::PackedRef;
use pb_wire::{Body, FieldReader, Next};
use std::alloc::Global;

/// The number of a message's field that holds an event.
const EVENTS: u32 = 6;

/// The event of a message that is one event and nothing else, spelled as this server writes it. It takes no memory.
/// `None` says nothing about the message: it may have an event that is spelled otherwise, other fields, or a fault.
pub fn plain_event(body: &[u8]) -> Option<PackedRef<'_>>
    // The message has no fault, and it is this event at any moment of reading.
    ensures clean { IfSome result (λ event. first_fault body.now ≡ None) }
    ensures sent { IfSome result (λ event.
        (now : ℕ) → message_of now body.now ≡ sent_of (event ∷ [])) }
    // Every event is found in the message that this server writes for it alone, if that is less than 4 GiB.
    ensures found { (event : Event) → IsWellFormedEvent event
        → body.now ≡ spelling (sent_of (event ∷ [])) → length body.now < 2 ^ 32
        → IsSome result }
{
    let mut fields = FieldReader::over(body);
    let first = fields.next();
    let Next::End = fields.next() else {
        return None;
    };
    event_in(body, first)
}

/// The events of a message that is nothing but events, each spelled as this server writes it. `None` says nothing about
/// the message: it may have an event that is spelled otherwise, other fields, or a fault. `Memory`: out of memory.
pub fn plain_events(alloc: Global, body: &[u8]) -> Result<Option<Vec<PackedRef<'_>>>, Memory>
    // The message has no fault, and it is these events at any moment of reading.
    ensures clean { IfOk result (λ plain. IfSome plain (λ events. first_fault body.now ≡ None)) }
    ensures sent { IfOk result (λ plain. IfSome plain (λ events.
        (now : ℕ) → message_of now body.now ≡ sent_of events.items)) }
    // All events are found in the message that this server writes for them, if that is less than 4 GiB.
    ensures found { (events : List Event) → AllByRecursion IsWellFormedEvent events
        → body.now ≡ spelling (sent_of events) → length body.now < 2 ^ 32
        → IfOk result (λ plain. IsSome plain) }
{
    let mut events = Vec::new(alloc);
    let mut fields = FieldReader::over(body);
    'fields: loop {
        match fields.next() {
            Next::End => return Ok(Some(events)),
            field => match event_in(body, field) {
                Some(event) => events.push(event)?,
                None => return Ok(None),
            },
        }
    }
}

/// The event that the field of the message holds, if it holds one that is spelled as this server writes it.
#[inline(always)]
fn event_in(body: &[u8], field: Next) -> Option<PackedRef<'_>>
    requires { LiesIn body.now field }
    ensures holds { IfSome result (λ event. HoldsNext body.now field event) }
    ensures found { (event : Event) → IsWellFormedEvent event → IsWritten body.now field event
        → length body.now < 2 ^ 32 → IsSome result }
{
    match field {
        Next::Field {
            number: EVENTS,
            body: Body::Bytes { start, end },
            ..
        } => PackedRef::of(&body[start..end]),
        _ => None,
    }
}
