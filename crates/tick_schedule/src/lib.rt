//! When numbered things are due.
#![tactic(auto)]

mod due_lists;
mod id_list;
mod places;
mod queue;

pub use queue::DueQueue;
