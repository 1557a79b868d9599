//! What the links, messages and replies of a server mean: the state after a run of calls, which calls it may make, and
//! the reply to each message. These are definitions and laws for the contracts of the crates above, and what is decided
//! by a number alone.
#![tactic(auto)]

mod example;
mod law;
mod limits;
mod stage;

pub use example::examples_are_computed;
pub use law::{messages_come_whole, numbers_rise, prefixes_are_sent, steps_come_in_order};
pub use limits::{fits, is_busy, may_connect, next_moment};
pub use stage::Stage;
