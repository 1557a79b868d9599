//! Links of a server that outlives a stop: they give the turns of a journal again, and then record those that follow.
//! And what is known after any number of their calls.
#![tactic(auto)]

mod again;
mod law;
mod links;
mod loan;
mod make;
mod opened;
mod reading;
mod replay;
mod room;
mod run_law;
mod traced;

pub use law::{journals_have_turns, turns_are_kept};
pub use links::JournalLinks;
pub use loan::JournalLoan;
pub use opened::{OpenLinks, last_opened};
pub use reading::{TurnRecords, read_journal};
pub use replay::Replay;
pub use room::JournalRoom;
pub use run_law::{calls_are_passed, last_turn_is_kept, turns_are_recorded};
pub use traced::ResumedLinks;
