//! Numbers by host and service, in order.
#![tactic(auto)]

mod map;
mod services;

pub use map::KeyMap;
