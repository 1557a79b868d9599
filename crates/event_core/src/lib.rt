//! Streams, the index that they write to, and the events of it that expire, together.
#![tactic(auto)]

mod arrivals;
mod by_value;
mod clock;
mod outputs;
mod streams;

pub use arrivals::Core;
pub use live_index::PackedIndex;
