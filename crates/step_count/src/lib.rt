//! A counter of the steps that a bound on work speaks of: forks that were entered, and entries that were visited.
#![tactic(auto)]

mod ledger;
mod runs;
mod steps;

pub use ledger::{CountLedger, Ledger, NoLedger};
pub use runs::{Step, count_all, count_from_zero};
pub use steps::Steps;
