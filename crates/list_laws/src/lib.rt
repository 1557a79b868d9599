//! What the other crates count and list by: a growing list, tests of the elements of a list, prefixes and window
//! numbers.
#![tactic(auto)]

mod items;
mod keep;
mod memory;
mod prefix;
mod window;

pub use items::{Ids, Items};
pub use keep::{count_where, keep_where};
pub use memory::Memory;
pub use prefix::is_prefix;
pub use window::window_of;
