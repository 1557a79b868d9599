//! One run of a server: it listens, and then takes turn after turn. And laws of runs, whose functions do not run.
#![tactic(auto)]

mod fault;
mod law;
mod server;
mod setup;
mod start;
mod turn;

pub use conn_core;
pub use conn_core::{event_core, hub_meaning};
pub use fault::RunFault;
pub use law::{feeds_are_answered, feeds_are_posted, sends_are_taken};
pub use server::{run, run_quietly};
pub use setup::Setup;
