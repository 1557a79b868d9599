//! One link of a server: what came on it, the replies to it, and what of them is not sent yet.
#![tactic(auto)]

mod frames;
mod link;
mod unsent;

pub use link::HubLink;
pub use msg_replies;
pub use msg_replies::{event_core, hub_meaning};
