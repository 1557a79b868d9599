//! Links over TCP, to clients and to a server, and the system's clock, over `mio`.
#![tactic(auto)]

mod accept;
mod client;
mod dial;
mod dial_links;
mod fault;
mod links;
mod queue;
mod readings;
mod share;
mod sockets;

pub use accept::{Refusal, refusal_of};
pub use dial_links::DialLinks;
pub use links::MioLinks;
pub use readings::Readings;
pub use share::{LEAST_SHARE, Share};
pub use sockets::Sockets;
