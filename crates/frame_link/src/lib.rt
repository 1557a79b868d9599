//! The bytes of one link that were not handed out as frames yet, over `bytes`.
#![tactic(auto)]

mod buffer;
mod link;

pub use buffer::{FirstFrame, FrameBuffer, first_frame};
pub use link::{FrameLink, Taken};
