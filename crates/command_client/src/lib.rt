//! The commands of a client: they send requests to a server, and write its replies.
#![tactic(auto)]

mod ending;
mod exchange;
mod law;
mod query_command;
mod reply;
mod request;
mod send_command;

pub use law::queries_are_requests;
pub use query_command::query;
pub use query_lang::MAX_BYTES;
pub use send_command::send;
