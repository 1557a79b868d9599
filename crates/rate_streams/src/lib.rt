//! Streams whose rate is bounded or evened out: `throttle`, `batch`, `stable` and `rollup`. Each state keeps what the
//! stream needs of the events that came, and says what it passes on at an event or at a second.
#![tactic(auto)]

mod batch;
mod rollup;
mod send;
mod stable;
mod throttle;
mod windows;

pub use batch::{BatchParams, BatchState};
pub use rollup::{RollupParams, RollupState};
pub use stable::{StableParams, StableState};
pub use throttle::{ThrottleParams, ThrottleState};
