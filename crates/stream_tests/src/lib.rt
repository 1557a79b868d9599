//! Runs tests of a configuration: the seconds and events of a test come to the streams of the configuration, and what
//! they give notice of is compared with what the test expects.
#![tactic(auto)]

mod fault;
mod play;
mod run;
mod same;
mod verdict;

pub use config_tests::{
    Entries, Entry, Expect, Expects, MAX_SECONDS, MAX_TICK, Test, TestFault, Tests, read_tests,
};
pub use fault::RunFault;
pub use run::run_test;
pub use verdict::{Verdict, verdicts_are_one};
