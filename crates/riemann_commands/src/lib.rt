//! The commands of the program: which one the arguments name, and what it does over the files, links and sinks that it
//! is handed.
#![tactic(auto)]

mod command;
mod law;
mod program;
mod server;

pub use law::last_lines_are_left;
pub use program::{ArgumentsFault, arguments, is_of_client, run};
pub use server::riemann;
