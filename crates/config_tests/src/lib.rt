//! Tests of configurations, as texts of s-expressions. A test has seconds and events that come to the streams of a
//! configuration, and the items that they are to give notice of under a name.
#![tactic(auto)]

mod draft;
mod entry;
mod fault;
mod law;
mod limits;
mod map;
mod read;
mod suite;
mod word;

pub use draft::{MAX_SECONDS, MAX_TICK};
pub use entry::{Entries, Entry, Expect, Expects, Test, Tests};
pub use fault::TestFault;
pub use law::{faults_are_first, tests_are_read, texts_have_one_answer};
pub use limits::limits_are_numbers;
pub use read::read_tests;
