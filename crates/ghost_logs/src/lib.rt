//! Histories that only proofs see. They take no memory, and nothing of them is left in the program.
#![tactic(auto)]

mod logs;

pub use logs::{ByteLog, FileLog, TextLog};
