//! The commands of a server that keeps a journal: `record CONFIG JOURNAL` begins one, and `resume JOURNAL` goes on with
//! it.
#![tactic(auto)]

mod ending;
mod fetch;
mod journal;
mod record_command;
mod resume_command;

pub use record_command::record;
pub use resume_command::resume;
