//! Keys of events that are not made: their parts are read in the events.
ghost use Rattle.std.specs.Prelude.{◌≡◌, IsTrue};
ghost use Rattle.ev_types.specs.Key.{event_key};

use ev_types::{Event, Fields, Key, Value, field_is, field_number, field_text};
use std::hash::{FoldHasher, Hasher};

/// The hash of what the event holds in the fields. It is that of the key that they make.
pub(crate) fn hash_of_fields(event: &Event, fields: &Fields) -> u64 {
    let mut hasher = FoldHasher::default();
    for field in fields.as_slice() {
        if let Some(text) = field_text(event, field) {
            hasher.write(text.as_bytes());
        } else if let Some(number) = field_number(event, field) {
            hasher.write_i64(number);
        }
    }
    hasher.finish()
}

/// The hash of the key.
pub(crate) fn hash_of_key(key: &Key) -> u64 {
    let mut hasher = FoldHasher::default();
    for part in key.as_slice() {
        match part {
            Value::Nil => {}
            Value::Number(number) => hasher.write_i64(*number),
            Value::Text(text) => hasher.write(text.as_bytes()),
        }
    }
    hasher.finish()
}

/// Whether the key is what the event holds in the fields.
pub(crate) fn is_key_of(key: &Key, event: &Event, fields: &Fields) -> bool
    ensures { IsTrue result → key.now ≡ event_key event.now fields.now }
{
    let parts = key.as_slice();
    let fields = fields.as_slice();
    if parts.len() != fields.len() {
        return false;
    }
    for i in 0..fields.len() {
        if !field_is(event, &fields[i], &parts[i]) {
            return false;
        }
    }
    true
}
