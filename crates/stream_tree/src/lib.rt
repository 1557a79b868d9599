//! A plan of streams that runs: entries go down its streams one after another, and notices and writes come out.
#![tactic(auto)]

mod bare;
mod by_value;
mod ends;
mod forest;
mod fork;
mod give;
mod next;
mod run;
mod tree;
mod unseen;

pub use tree::Tree;
pub use unseen::Unseen;
