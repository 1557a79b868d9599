//! The states of the kinds of streams that keep something, as one type. A stream needs no line for each kind to run
//! them.
#![tactic(auto)]

mod fresh;
mod kept;
mod law;
mod range;

pub use flow_streams;
pub use kept::KeptState;
pub use law::vectors_are_ignored;
pub use rate_streams;
pub use window_streams;
