//! Graphite's plain text: lines of a path, a value and a time, read as events and written as frames of messages.
#![tactic(auto)]

mod bad;
mod cut;
mod example;
mod fault;
mod frames;
mod law;
mod line;
mod lines;
mod number;
mod path;
mod put;
mod words;

pub use bad::{BadLine, BadLines};
pub use example::graphite_examples_are_computed;
pub use fault::{LineFault, LineWhy};
pub use frames::graphite_frames;
pub use law::frames_are_read_back;
pub use line::read_line;
