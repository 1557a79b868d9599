//! The streams of configurations: their kinds, the streams below them, and the places of their forms.
#![tactic(auto)]

mod given;
mod kinds;
mod law;
mod source;
mod streams;

pub use law::streams_are_read;
pub use source::{Source, Sources};
pub use streams::{Below, Located, tops_onto};
