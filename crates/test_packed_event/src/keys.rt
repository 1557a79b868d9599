use crate::packed::FULL;
use ev_types::Event;
use packed_event::{PackedEvent, PackedRef};
use std::cmp::Ordering;
use stored_event::KeyRef;

/// Whether the event, which owns its parts, has this key.
fn is_key_of(event: &Event, key: KeyRef<'_>) -> bool {
    let own = KeyRef::of(event);
    key.is(own) && key.hash() == own.hash()
}

/// Whether the bytes have this key.
fn is_lent_key(bytes: &[u8], key: KeyRef<'_>) -> bool {
    match PackedRef::of(bytes) {
        Some(lent) => key.is(KeyRef::of_ref(&lent)),
        None => false,
    }
}

/// Whether the key of the event of [`FULL`] is that of its bytes, and of the event that owns its parts.
pub(crate) fn is_keyed(full: &PackedEvent, event: &Event) -> bool {
    let key = KeyRef::of_packed(full);
    is_key_of(event, key) && is_lent_key(FULL, key)
}

/// Whether the first key comes after the other one.
fn comes_after(key: KeyRef<'_>, other: KeyRef<'_>) -> bool {
    !key.is(other)
        && key.cmp(other) == Ordering::Greater
        && other.cmp(key) == Ordering::Less
        && key.cmp(key) == Ordering::Equal
}

/// Whether the key of the first event comes after that of the other one.
pub(crate) fn are_ordered(event: &PackedEvent, other: &PackedEvent) -> bool {
    comes_after(KeyRef::of_packed(event), KeyRef::of_packed(other))
}
