//! The format of a journal: a configuration, and a record of each turn of a run with it.
#![tactic(auto)]

mod finder;
mod law;
mod limits;
mod numbers;
mod reader;
mod turn_record;
mod unread;
mod writer;

pub use finder::{Found, NoJournal, find_gate};
pub use law::{files_hold_or_misfit, journals_are_one, misfits_hold_none, prefixes_are_journals};
pub use limits::{
    CONFIG_LIMIT, JOURNAL_LIMIT, PIECE_LIMIT, STEP_LIMIT, SUMMARY_LIMIT, limits_are_numbers,
};
pub use reader::read_record;
pub use turn_record::{SendEnd, Summaries, Summary, TurnEvent, TurnRecord};
pub use unread::Unread;
pub use writer::{push_head, push_read_turn, push_record, push_turn};
