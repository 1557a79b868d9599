//! Runs of a server whose turns a journal keeps.
#![tactic(auto)]

mod fault;
mod law;
mod recorded;
mod resumed;

pub use fault::JournalRunFault;
pub use law::crashes_are_loaded;
pub use recorded::run_recorded;
pub use resumed::run_resumed;
