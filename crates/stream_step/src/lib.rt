//! One stream at one entry: what it says, what it passes on, and what it keeps for the next one.
#![tactic(auto)]

mod law;
mod passed;
mod state;
mod step;

pub use law::quiet_ticks_keep_states;
pub use passed::{Branch, Passed};
pub use state::State;
pub use step::{Context, act, own_patterns};
pub use stream_states;
