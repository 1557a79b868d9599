//! A generated load: links in memory on which one client sends events whose fields follow from a starting number.
#![tactic(auto)]

mod events;
mod limits;
mod links;
mod replies;

pub use events::{INCREMENT, MULTIPLIER};
pub use limits::generator_is_given;
pub use links::LoadLinks;
