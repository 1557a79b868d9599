//! The events that are live, by host and service.
#![tactic(auto)]

mod by_value;
mod index;
mod keyed;
mod ordered;
mod slots;

pub use index::{EventIndex, LiveIndex, PackedIndex};
