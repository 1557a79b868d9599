//! Streams that pass on vectors of events: windows by the number of events or by their times, and the last event of
//! each host and service.
//!
//! Each state is made by `fresh`, takes an event by `item` and a second by `tick`, and says by `due` when it next
//! passes something on if only seconds follow. A state that ran out of memory is poisoned: each later call that may
//! answer [`Memory`](ev_types::Memory) does.
#![tactic(auto)]

mod coalesce;
mod fixed_event;
mod fixed_time;
mod last_events;
mod moving_event;
mod moving_time;
mod send;

pub use coalesce::{CoalesceParams, CoalesceState};
pub use fixed_event::{FixedEventParams, FixedEventState};
pub use fixed_time::{FixedTimeParams, FixedTimeState};
pub use moving_event::{MovingEventParams, MovingEventState};
pub use moving_time::{MovingTimeParams, MovingTimeState};
