ghost use Rattle.std.specs.Prelude.{◌≡◌, option_copied};
ghost use Rattle.ev_types.specs.Field.{field_value};
ghost use Rattle.ev_types.specs.Set.{has_text};
ghost use Rattle.ev_types.specs.Text.{is_text};
ghost use Rattle.ev_types.specs.Value.{number_of, same_value, text_of};

use crate::{Event, Field, Text, Value, field_number, field_text};

/// An event whose fields can be read, whether it owns its parts or is kept in another way. No call takes memory.
pub trait EventFields {
    ghost use Rattle.ev_types.specs.declared.event.Event.{Event};

    /// The event that it is.
    ghost event: { Self → Event };

    /// The text that it holds in the field, if it holds one.
    fn text_in(&self, field: &Field) -> Option<&str>
        ensures { option_copied result ≡ text_of (field_value (event self.now) field.now) };

    /// The number that it holds in the field, if it holds one.
    fn number_in(&self, field: &Field) -> Option<i64>
        ensures { result ≡ number_of (field_value (event self.now) field.now) };

    /// Whether the tag is one of its tags.
    fn is_tagged(&self, tag: &Text) -> bool
        ensures { result ≡ has_text tag.now (event self.now).tags };
}

impl EventFields for Event {
    ghost event = { λ event. event };

    fn text_in(&self, field: &Field) -> Option<&str> {
        match field_text(self, field) {
            Some(text) => Some(text.as_str()),
            None => None,
        }
    }

    fn number_in(&self, field: &Field) -> Option<i64> {
        field_number(self, field)
    }

    fn is_tagged(&self, tag: &Text) -> bool {
        self.has_tag(tag)
    }
}

/// Whether the event holds this value in the field; an absent field holds nil.
pub fn holds_value<E: EventFields>(event: &E, field: &Field, value: &Value) -> bool
    ensures { result ≡ same_value (field_value (E.event event.now) field.now) value.now }
{
    match value {
        Value::Nil => event.text_in(field).is_none() && event.number_in(field).is_none(),
        Value::Number(number) => event.number_in(field) == Some(*number),
        Value::Text(text) => is_text(event.text_in(field), text),
    }
}

/// Whether there is a text, and it is this one.
fn is_text(held: Option<&str>, text: &Text) -> bool
    ensures { result ≡ is_text text.now (option_copied held.entry) }
{
    match held {
        Some(held) => held == text.as_str(),
        None => false,
    }
}
