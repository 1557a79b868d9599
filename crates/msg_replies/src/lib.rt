//! Messages that come to a server, and what they are answered: their events are posted to the core, and their queries
//! are answered from its index.
#![tactic(auto)]

mod queries;
mod replies;
mod spare;

pub use event_core;
pub use hub_meaning;
pub use replies::{answer, refuse_length};
pub use spare::Spare;
