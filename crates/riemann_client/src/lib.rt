//! A client: requests that are sent over one link, and their replies, as a machine that takes turns over links.
#![tactic(auto)]

mod client;
mod clock;
mod law;
mod progress;
mod replies;
mod requests;

pub use client::Client;
pub use law::exchanges_are_sound;
pub use progress::Progress;
pub use replies::Msgs;
pub use requests::{Blobs, Counted, count_requests, has_request, put_frame};
