use crate::packed::{FULL, LAST, is_packed_as};
use ev_types::Event;
use packed_event::PackedRef;
use std::alloc::Global;

/// Whether the event that these bytes are unpacked into is packed as they are.
fn is_unpacked(alloc: Global, event: &mut Event, bytes: &[u8]) -> bool {
    match PackedRef::of(bytes) {
        Some(packed) => {
            packed.unpack_into(alloc, event).is_ok() && is_packed_as(alloc, event, bytes, None)
        }
        None => false,
    }
}

/// Whether the bytes of two events are unpacked into this one.
pub(crate) fn are_unpacked(alloc: Global, event: &mut Event) -> bool {
    is_unpacked(alloc, event, FULL) && is_unpacked(alloc, event, LAST)
}
