//! The commands that run a server over a file: `replay` plays a script to it, and `feed` feeds it the file's bytes.
#![tactic(auto)]

mod feed_command;
mod left;
mod play;
mod read;
mod replay_command;
mod run;
mod serve;

pub use feed_command::feed;
pub use replay_command::replay;
