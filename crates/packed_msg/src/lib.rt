//! Messages that are nothing but events, each spelled as this server writes it: their events are read where they lie.
#![tactic(auto)]

mod plain;

pub use plain::{plain_event, plain_events};
