//! What ties packed events to the reader of messages.

ghost use Rattle.packed_event.specs.Packed.{PackedEventsAreRead};

/// The bytes of a packed event are read as that event, with no fault, at any moment.
pub fn packed_events_are_read()
    ensures { PackedEventsAreRead }
{}
