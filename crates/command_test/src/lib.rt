//! The command that runs tests of a configuration.
#![tactic(auto)]

mod command;
mod ending;
mod files;
mod line;
mod one;
mod run;
mod stop;

pub use command::run_tests;
