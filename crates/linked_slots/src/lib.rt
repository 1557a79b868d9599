//! Values in slots with numbers, lists of ids, and hints of numbers by hashes.
#![tactic(auto)]

mod hints;
mod id_lists;
mod nodes;
mod table;

pub use hints::Hints;
pub use id_lists::Lists;
pub use table::StepTable;
