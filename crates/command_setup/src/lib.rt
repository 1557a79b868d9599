//! Setting up a server: its configuration is read, and the patterns in it are built. And how a command ends whose
//! server was cut off.
#![tactic(auto)]

mod ending;
mod setup;

pub use command_io;
pub use command_io::sexp_config;
pub use ending::ending_of_fault;
pub use hub_run;
pub use hub_run::{conn_core, event_core, hub_meaning};
pub use setup::{fetch_setup, read_setup};
