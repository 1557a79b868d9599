//! Streams that pass events on by what they hold: fields that are set, tags that are added, the branch of a rule, one
//! event made of a vector, and what the streams keep that compare an event with those before it.
#![tactic(auto)]

mod branch;
mod change;
mod changed;
mod emit;
mod fold;
mod runs;

pub use branch::route;
pub use change::{apply_defaults, apply_sets, apply_tags};
pub use changed::{ChangedParams, ChangedState};
pub use fold::apply_fold;
pub use runs::{RunsParams, RunsState};
