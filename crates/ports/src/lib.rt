//! The ends to the outside, as traits whose ghost members are their meaning, with forms in memory and forms over
//! the real thing.
#![tactic(auto)]

mod call_log;
mod count_sink;
mod entry;
mod fault_links;
mod feed;
mod file_store;
mod limits;
mod links;
mod mem_sink;
mod mem_store;
mod read_log;
mod rules;
mod script;
mod script_links;
mod sink;
mod store;
mod stream_sink;

pub use call_log::{CallLog, log_listen, log_send, log_turn};
pub use count_sink::CountSink;
pub use entry::{Entries, Entry};
pub use fault_links::FaultLinks;
pub use feed::feed_links;
pub use file_store::FileStore;
pub use limits::limits_are_numbers;
pub use links::{Links, ListenAnswer, PIECE_LIMIT, SendAnswer, Turn, Want, Wants, What};
pub use mem_sink::MemSink;
pub use mem_store::MemStore;
pub use rules::SendRule;
pub use script::{LinkEvent, Piece, Script, ScriptSteps, Step};
pub use script_links::ScriptLinks;
pub use sink::{Failed, Sink};
pub use store::{ReadAnswer, Reads, Store, StoreRead};
pub use stream_sink::StreamSink;
