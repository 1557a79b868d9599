//! Queries, as texts that state rules about events: read and written.
#![tactic(auto)]

mod answer;
mod fault;
mod grammar;
mod law;
mod limits;
mod parser;
mod read;
mod scan;
mod token;
mod write;

pub use answer::texts_have_one_answer;
pub use fault::QueryFault;
pub use law::written_is_read;
pub use limits::limits_are_numbers;
pub use parser::MAX_OPENINGS;
pub use read::{MAX_BYTES, read_query};
pub use write::write_query;
