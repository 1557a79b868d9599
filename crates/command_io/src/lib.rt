//! What the commands of the program share: how they end, the lines that they write on the error stream, and the files
//! that they read.
#![tactic(auto)]

mod build;
mod ending;
mod fetch;
mod limits;
mod lines;
mod read;
mod status;
mod write;

pub use build::build_ready;
pub use ending::{ConfigRefusal, Ending};
pub use fetch::{FetchFault, ending_of_config, fetch_config};
pub use hub_meaning;
pub use limits::{CONFIG_LIMIT, FILE_LIMIT, limits_are_numbers};
pub use lines::{MEMORY_LINE, USAGE, put_line, report};
pub use read::{FileFault, read_file};
pub use sexp_config;
pub use status::Status;
pub use write::put_all;
