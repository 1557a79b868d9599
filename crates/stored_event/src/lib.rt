//! Events in an index: each owns its parts, or is kept as its bytes. And their keys, lent from where they lie.
#![tactic(auto)]

mod bytes;
mod form;
mod key;
mod measured;
mod replies;
mod stored;

pub use form::EventForm;
pub use key::KeyRef;
pub use measured::{EMPTY_REPLY, MeasuredEvent};
pub use replies::{found_len, write_lent};
pub use stored::Stored;
