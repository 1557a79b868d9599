//! The commands that run a server over links: `serve` over those that it was handed, and `load` over a generated load,
//! of which it writes what it came to.
#![tactic(auto)]

mod limits;
mod load_command;
mod play;
mod serve_command;
mod summary;

pub use limits::limits_are_numbers;
pub use load_command::load;
pub use play::EVENT_LIMIT;
pub use serve_command::serve;
