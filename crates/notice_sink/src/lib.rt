//! Notices as lines of text, and the writing of them to a sink.
#![tactic(auto)]

mod item;
mod notice;
mod quoting;

pub use item::put_item;
pub use notice::{LineFault, NoticeWriter, write_notice};
pub use quoting::put_quoted;
