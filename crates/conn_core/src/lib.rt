//! The hub of a server: its core, its links, and one turn of them after another.
#![tactic(auto)]

mod hub;
mod lines;
mod links;
mod stop;
mod table;

pub use hub::Hub;
pub use hub_link;
pub use hub_link::{event_core, hub_meaning, msg_replies};
pub use stop::Stop;
