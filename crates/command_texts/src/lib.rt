//! The commands that write what a text comes to, and run no server: `check CONFIG` reads a configuration, builds its
//! patterns, and writes its canonical text; `graphite FILE` writes the frames of Graphite's plain text.
#![tactic(auto)]

mod check_command;
mod graphite_command;
mod text;
mod write;

pub use check_command::check;
pub use graphite_command::graphite;
