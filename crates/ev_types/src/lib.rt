//! The values that the whole server speaks of: text, bytes, lists, events and the values of their fields, and what
//! streams hand on.
#![tactic(auto)]

mod blob;
mod change;
mod clock;
mod event;
mod event_fields;
mod field;
mod item;
mod key;
mod limits;
mod names;
mod rebirth;
mod settings;
mod text;
mod value;

pub use blob::Blob;
pub use change::{MAX_TTL, all_fit, fits};
pub use clock::{LATEST_MOMENT, SECONDS_PER_TURN};
pub use event::{Attr, Attrs, DEFAULT_TTL, Event, Events, Tags};
pub use event_fields::{EventFields, holds_value};
pub use field::{Field, Fields, field_is, field_number, field_text, same_field};
pub use item::{Emission, Emissions, Item, Notice, Notices, Output, Outputs};
pub use key::{Key, key_of, same_keys_are_equal};
pub use limits::limits_are_numbers;
pub use list_laws::{Items, Memory};
pub use settings::{Expiry, Fold, KeepKey, KeepKeys, Set, Sets};
pub use text::{Text, TextFault, Texts};
pub use value::{Value, values_are_ordered};
