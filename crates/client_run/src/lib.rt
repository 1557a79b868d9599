//! One exchange of a client over links: it connects, and then takes turn after turn.
#![tactic(auto)]

mod outcome;
mod run;
mod turn;

pub use outcome::{Exchanged, Outcome, RunFault};
pub use riemann_client;
pub use run::exchange;
