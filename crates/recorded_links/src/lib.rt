//! Links whose turns are recorded in a journal before they are handed out, and what is known after any number of their
//! calls.
#![tactic(auto)]

mod ask;
mod law;
mod links;
mod own;
mod recorder;
mod room;
mod sends;

pub use law::{crashes_leave_turns, last_turn_is_kept};
pub use links::RecordedLinks;
pub use recorder::TurnRecorder;
pub use room::{RecordRoom, TurnRoom};
pub use sends::Sends;
