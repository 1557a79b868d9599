//! Events that are kept as their bytes: whether the bytes of an event are already those that this server writes for it,
//! and where its parts are in them.
#![tactic(auto)]

mod attribute;
mod body;
mod fields;
mod law;
mod names;
mod numbers;
mod pack;
mod packed;
mod packed_ref;
mod places;
mod repeated;
mod unpack;
mod varint;
mod well_formed;

pub use law::packed_events_are_read;
pub use pack::PackFault;
pub use packed::PackedEvent;
pub use packed_ref::PackedRef;
pub use places::{Places, Span, places_of};
